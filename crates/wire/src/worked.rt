ghost use Rattle.std.specs.Prelude.{◌≡◌, [], ◌∷◌, replicate, codes};
ghost use Rattle.wire.specs.Frame.{size_of};
ghost use Rattle.wire.specs.Values.{string, null, new_id, array};
ghost use Rattle.wire.specs.Worked.{WorkedFrames, alone};

fn worked_frames()
    ensures { WorkedFrames }
{}

// The sizes of the worked frames of one argument: new id 2, the empty string, the null string, "hey", "abcd" and an array of 5 bytes.
pub fn worked_sizes() -> [u16; 6]
    ensures sizes { result ≡ size_of (alone (new_id 2)) ∷ size_of (alone (string [])) ∷ size_of (alone null) ∷ size_of (alone (string (codes "hey"))) ∷ size_of (alone (string (codes "abcd"))) ∷ size_of (alone (array (replicate 5 0))) ∷ [] }
    ensures worked { WorkedFrames }
{
    worked_frames();
    [12, 16, 12, 16, 20, 20]
}
