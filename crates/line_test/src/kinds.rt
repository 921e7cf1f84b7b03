// What a user of each kind of line may lean on, in the words of the kind: the contracts of `Stored` at its two stores.
// A function for each kind, since a clause in the words of one says nothing of the other.

ghost use Rattle.std.specs.Prelude.{◌≡◌, ◌≤◌, [], length};
ghost use Rattle.protocol.specs.Limits.{limits};
ghost use Rattle.line.specs.Choices.{SentBy, ReceivedBy, shut_with, state_by};
ghost use Rattle.line.specs.Line.{Between, Sent, Received, fds_of};
ghost use Rattle.line.specs.Parcel.{parcel_choices};
ghost use Rattle.line.specs.ParcelView.{parcel_state};
ghost use Rattle.line.specs.Ring.{ring_choices, GivesMost};
ghost use Rattle.line.specs.RingView.{ring_state};
ghost use Rattle.line.specs.Seen.{line_seen, seen_at};

use line::{CellView, Hosted, Line, LineView, Parcel, Ring};
use protocol::{OwnedFd, Refusal};

fn new_ring() -> Ring
    ensures { ring_state result ≡ state_by (ring_choices limits) [] 0 }
{
    Ring::new()
}

fn send_to_ring(ring: &mut Ring, bytes: &[u8], fds: &[OwnedFd]) -> Result<usize, Refusal>
    ensures sent { Sent limits (ring_state ring.old) bytes.now fds.now result (ring_state ring.new) }
    ensures chosen { SentBy (ring_choices limits) (ring_state ring.old) bytes.now fds.now result (ring_state ring.new) }
{
    ring.send(bytes, fds)
}

fn receive_from_ring(
    ring: &mut Ring,
    bytes: &mut [u8],
    fds: &mut [OwnedFd],
) -> Result<(usize, usize), Refusal>
    ensures received { Received limits (ring_state ring.old) bytes.old fds.old result bytes.new fds.new (ring_state ring.new) }
    ensures chosen { ReceivedBy (ring_choices limits) (ring_state ring.old) (length bytes.old) result (ring_state ring.new) }
    ensures most { GivesMost limits (ring_state ring.old).cells (length bytes.old) result }
{
    ring.receive(bytes, fds)
}

fn new_parcel() -> Parcel
    ensures { parcel_state result ≡ state_by (parcel_choices limits) [] 0 }
{
    Parcel::new()
}

fn send_to_parcel(parcel: &mut Parcel, bytes: &[u8], fds: &[OwnedFd]) -> Result<usize, Refusal>
    ensures sent { Sent limits (parcel_state parcel.old) bytes.now fds.now result (parcel_state parcel.new) }
    ensures chosen { SentBy (parcel_choices limits) (parcel_state parcel.old) bytes.now fds.now result (parcel_state parcel.new) }
{
    parcel.send(bytes, fds)
}

fn receive_from_parcel(
    parcel: &mut Parcel,
    bytes: &mut [u8],
    fds: &mut [OwnedFd],
) -> Result<(usize, usize), Refusal>
    ensures received { Received limits (parcel_state parcel.old) bytes.old fds.old result bytes.new fds.new (parcel_state parcel.new) }
    ensures chosen { ReceivedBy (parcel_choices limits) (parcel_state parcel.old) (length bytes.old) result (parcel_state parcel.new) }
{
    parcel.receive(bytes, fds)
}

fn view_of_ring(ring: &Ring) -> LineView
    ensures { result ≡ line_seen (ring_state ring.now) }
{
    ring.view()
}

fn cell_of_ring(ring: &Ring, place: usize) -> Option<CellView>
    ensures { result ≡ seen_at (ring_state ring.now).cells place }
{
    ring.cell(place)
}

fn shut_ring(ring: &mut Ring, code: u32)
    ensures after { ring_state ring.new ≡ shut_with code (ring_state ring.old) }
    ensures between { Between (ring_state ring.old) (ring_state ring.new) }
{
    ring.shut(code);
}

fn view_of_parcel(parcel: &Parcel) -> LineView
    ensures { result ≡ line_seen (parcel_state parcel.now) }
{
    parcel.view()
}

fn cell_of_parcel(parcel: &Parcel, place: usize) -> Option<CellView>
    ensures { result ≡ seen_at (parcel_state parcel.now).cells place }
{
    parcel.cell(place)
}

fn shut_parcel(parcel: &mut Parcel, code: u32)
    ensures after { parcel_state parcel.new ≡ shut_with code (parcel_state parcel.old) }
    ensures between { Between (parcel_state parcel.old) (parcel_state parcel.new) }
{
    parcel.shut(code);
}

// What holds of any line of a kind, whatever came before.

fn waiting_in_ring(ring: &Ring) -> usize
    ensures { result ≤ 8192 }
{
    ring.view().waiting
}

// The duplicates on all cells.
fn fds_in_ring(ring: &Ring) -> usize
    ensures all { result ≡ length (fds_of (ring_state ring.now).cells) }
    ensures within { result ≤ 512 }
{
    let mut fds = 0;
    for place in 0..ring.view().waiting {
        if let Some(cell) = ring.cell(place) {
            fds += cell.fds;
        }
    }
    fds
}

fn waiting_in_parcel(parcel: &Parcel) -> usize
    ensures { result ≤ 4096 }
{
    parcel.view().waiting
}

// The second cell carries no duplicates.
fn second_of_parcel(parcel: &Parcel) -> usize
    ensures { result ≡ 0 }
{
    match parcel.cell(1) {
        Some(cell) => cell.fds,
        None => 0,
    }
}
