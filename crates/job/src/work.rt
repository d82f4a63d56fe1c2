// Rows 9 and 10: operations and turns.
ghost use Rattle.std.specs.Prelude.{◌≡◌};
ghost use Rattle.spec.specs.Check.{bad_op, wrong_op, wrong_turn};

use reader::Headed;
use spec::Kind;

// 9 operation: "kind not 1 to 3, spare byte or charge not zero where it must be"
fn bad_op(op: &[u8; 10]) -> bool
    ensures { result ≡ bad_op op.now }
{
    let spare = wire::u8_at(op, 1) != 0;
    match reader::kind_of(wire::u8_at(op, 0)) {
        None => true,
        Some(Kind::Search) => spare || wire::u32_at(op, 6) != 0,
        Some(Kind::Insert) => spare,
        Some(Kind::Delete) => spare,
    }
}

pub fn wrong_op(reader: Headed) -> Option<usize>
    ensures { result ≡ wrong_op reader.entry.job.now }
{
    let i = (0..reader.header.ops).find(|i| bad_op(reader.op_bytes(*i)))?;
    Some(reader.header.op_place(i))
}

// 10 turn: "m or above"
pub fn wrong_turn(reader: Headed) -> Option<usize>
    ensures { result ≡ wrong_turn reader.entry.job.now }
{
    let m = reader.header.ops;
    let t = (0..reader.header.turns).find(|t| m <= reader.turn(*t))?;
    Some(reader.header.turn_place(t))
}
