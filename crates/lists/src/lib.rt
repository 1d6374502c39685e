// Lists in fixed memory. In specs/ stand the functions on lists that every crate's definitions use, and in proofs/ their laws.
#![tactic(auto)]

ghost use Rattle.std.specs.Prelude.{◌≡◌, take};

// The elements of a fixed memory that are in use: its first `count`, or all of them where the count says more.
pub fn in_use<T>(slots: &[T], count: usize) -> &[T]
    ensures { result.now ≡ take count slots.now }
{
    match slots.get(..count) {
        Some(used) => used,
        None => slots,
    }
}
