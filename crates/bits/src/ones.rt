// The bits that are set in a word, the lowest first.
ghost use Rattle.std.specs.Iterator.{at_most};
ghost use Rattle.bits.specs.Ones.{Gives};

#[derive(Drop)]
pub struct Ones(pub u64);

impl Iterator for Ones {
    type Item = usize;

    ghost next_gives = { Gives };

    ghost remaining = { λ s. at_most s.0 };

    fn next(&mut self) -> Option<usize> {
        if self.0 == 0 {
            return None;
        }
        let x = self.0.trailing_zeros() as usize;
        self.0 &= self.0 - 1;
        Some(x)
    }
}
