ghost use Rattle.std.specs.Prelude.{◌≡◌, true};
ghost use Rattle.std.specs.Option.{option_map};
ghost use Rattle.signature.specs.Bound.{few_answer};
ghost use Rattle.signature.specs.Rows.{row_for, row_types, apart, each_reads, allowed, answer, Plain, Made};
ghost use Rattle.signature.specs.View.{types_in};

use crate::notation::Notation;
use crate::source::SignatureSource;
use crate::types::Signature;
use protocol::{ArgumentType, Refusal};

// The most rows that a source may have.
const MOST_ROWS: usize = 256;

// The types of one message stand at `place..place + len` of a body. No slice: rows are lists of numbers that a caller may store.
#[derive(Clone, Copy, Debug, PartialEq, Eq)]
pub struct Row {
    pub sender: u32,
    pub opcode: u16,
    pub place: usize,
    pub len: usize,
}

// The first row with this sender and opcode.
fn find(rows: &[Row], sender: u32, opcode: u16) -> Option<Row>
    ensures { result ≡ row_for rows.now sender opcode }
{
    // A loop: as a chain with `find` it takes twice as long over many rows.
    for row in rows {
        if row.sender == sender && row.opcode == opcode {
            return Some(*row);
        }
    }
    None
}

// Whether no two rows are alike in sender and opcode.
fn all_apart(rows: &[Row]) -> bool
    ensures { result ≡ apart rows.now }
{
    let mut rest = rows;
    while let [row, behind @ ..] = rest {
        if find(behind, row.sender, row.opcode).is_some() {
            return false;
        }
        rest = behind;
    }
    true
}

// Rows over a body that keep the rules: `new` is the only way to have one.
#[derive(Clone, Copy)]
pub struct RowSource<'r, 'b, E> {
    rows: &'r [Row],
    body: &'b [E],
}

// Rows over a list of types.
pub type TypeSource<'r, 'b> = RowSource<'r, 'b, ArgumentType>;

// Rows over libwayland's letters.
pub type LetterSource<'r, 'b> = RowSource<'r, 'b, u8>;

impl<'r, 'b, E: Notation> RowSource<'r, 'b, E> {
    // BADROW where the rows break a rule.
    pub fn new(rows: &'r [Row], body: &'b [E]) -> Result<RowSource<'r, 'b, E>, Refusal>
        ensures { Made E.Notation.meaning rows.now body.now result }
    {
        let source = RowSource { rows, body };
        if source.keeps_rules() {
            Ok(source)
        } else {
            Err(Refusal::BadRow)
        }
    }

    // Whether the rows over the body keep the rules; where they do, a row's part is read as it stands.
    fn keeps_rules(&self) -> bool
        ensures rules { result ≡ allowed E.Notation.meaning self.now.rows.now self.now.body.now }
        ensures plain { result ≡ true → Plain E.Notation.meaning self.now.rows.now self.now.body.now }
    {
        self.rows.len() <= MOST_ROWS && self.all_read() && all_apart(self.rows)
    }

    // Whether each row has types.
    fn all_read(&self) -> bool
        ensures { result ≡ each_reads E.Notation.meaning self.now.body.now self.now.rows.now }
    {
        self.rows.iter().all(|row| self.read(*row).is_some())
    }

    // The types of a row, if it is inside the body and means some, and not too many.
    fn read(&self, row: Row) -> Option<Signature>
        ensures { option_map types_in result ≡ row_types E.Notation.meaning self.now.body.now row }
    {
        let end = row.place.checked_add(row.len)?;
        E::read(self.body.get(row.place..end)?)
    }
}

impl<E: Notation> SignatureSource for RowSource<'_, '_, E> {
    ghost types = { λ source. answer E.Notation.meaning source.rows.now source.body.now };

    ghost few = { λ source. few_answer E.Notation.meaning source.rows.now source.body.now };

    fn signature(&self, sender: u32, opcode: u16) -> Option<Signature> {
        self.read(find(self.rows, sender, opcode)?)
    }
}
