// The evaluation stack (ECMA-335, I.12.3.2.1): room for its greatest height is taken when it is made.
ghost use Rattle.std.specs.Prelude.{◌≡◌, ◌≤◌, ◌<◌, ◌∷◌, length, reverse, vec_len, vec_capacity};

// Pushes a value on the stack, whose top is the last element.
#[tactic(auto, using(crate::proofs::Turned::turned))]
pub fn push(stack: &mut Vec<u32>, value: u32)
    requires { vec_len stack.old < vec_capacity stack.old }
    ensures pushed { reverse stack.new.items ≡ value ∷ reverse stack.old.items }
    ensures room { vec_capacity stack.old ≤ vec_capacity stack.new }
{
    match stack.push(value) {
        Ok(()) => {}
        Err(_) => unreachable!(),
    }
}

// Pops the value on top.
#[tactic(auto, using(crate::proofs::Turned::turned))]
pub fn pop(stack: &mut Vec<u32>) -> u32
    requires { 1 ≤ length (reverse stack.old.items) }
    ensures popped { reverse stack.old.items ≡ result ∷ reverse stack.new.items }
    ensures room { vec_capacity stack.old ≤ vec_capacity stack.new }
{
    match stack.pop() {
        Some(value) => value,
        None => unreachable!(),
    }
}
