//! The types of the operations that a multi may hold.

ghost use Rattle.std.specs.Prelude.{◌≡◌};
ghost use Rattle.kp_wire.specs.OpKinds.{op_named, op_number};

/// The type of an operation of a multi.
#[derive(Clone, Copy)]
pub enum OpKind {
    Create,
    Delete,
    SetData,
    Check,
    Create2,
}

/// The type of that number, None where a multi may hold none.
#[tactic(auto, using(crate::proofs::Differ::differ), unfolding(crate::specs::OpKinds::op_named))]
pub(crate) fn op_kind_from(number: i32) -> Option<OpKind>
    ensures { result ≡ op_named number }
{
    match number {
        1 => Some(OpKind::Create),
        2 => Some(OpKind::Delete),
        5 => Some(OpKind::SetData),
        13 => Some(OpKind::Check),
        15 => Some(OpKind::Create2),
        _ => None,
    }
}

/// The type's number.
pub(crate) fn op_number(kind: OpKind) -> i32
    ensures { result ≡ op_number kind }
{
    match kind {
        OpKind::Create => 1,
        OpKind::Delete => 2,
        OpKind::SetData => 5,
        OpKind::Check => 13,
        OpKind::Create2 => 15,
    }
}
