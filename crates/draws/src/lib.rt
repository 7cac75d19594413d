// A small fixed generator of numbers, for the programs that run the calls on many sets: each number is made of the
// one before it.
#![tactic(auto)]

ghost use Rattle.std.specs.Prelude.{◌≡◌, ◌+◌, ◌*◌, ◌%◌, ◌^◌};

// Numbers of 16 bits, drawn one after the other; the first is made of the `last` that the generator begins with.
#[derive(Clone, Copy)]
pub struct Draws {
    pub last: u16,
}

impl Draws {
    // The next number.
    pub fn draw(&mut self) -> u16
        ensures { (result ≡ (self.old.last * 25173 + 13849) % 2 ^ 16) × (self.new.last ≡ result) }
    {
        self.last = self.last.wrapping_mul(25173).wrapping_add(13849);
        self.last
    }
}
