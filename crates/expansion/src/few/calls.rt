ghost use Rattle.std.specs.Prelude.{◌≡◌, ◌<◌, [], ◌∷◌, ◌++◌, length, nat_eq, slice_set};
ghost use Rattle.std.specs.List.{AllZip};
ghost use Rattle.model.specs.Lists.{any};
ghost use Rattle.expansion.specs.Few.{held};

use crate::few::Few;

impl Few {
    pub fn new() -> Few
        ensures { held result ≡ [] }
    {
        Few {
            numbers: [0; 16],
            count: 0,
        }
    }

    pub fn as_slice(&self) -> &[u8]
        ensures { result.now ≡ held self.now }
    {
        &self.numbers[..usize::from(self.count)]
    }

    #[tactic(auto, using(crate::proofs::Fews::any_is))]
    pub(crate) fn contains(&self, number: u8) -> bool
        ensures { result ≡ any (nat_eq number) (held self.now) }
    {
        self.as_slice().contains(&number)
    }

    pub(crate) fn push(&mut self, number: u8)
        requires { length (held self.old) < 16 }
        ensures { held self.new ≡ held self.old ++ number ∷ [] }
    {
        self.numbers[usize::from(self.count)] = number;
        self.count += 1;
    }

    pub(crate) fn put(&mut self, i: usize, number: u8)
        requires { i < length (held self.old) }
        ensures { held self.new ≡ slice_set (held self.old) i number }
    {
        self.numbers[i] = number;
    }

    // What `f` gives for each number.
    pub(crate) fn map<F: Fn(u8) -> u8>(&self, f: F) -> Few
        requires { F.IsAlwaysCallable f }
        ensures { AllZip (F.post f) (held self.now) (held result) }
    {
        let mut each = Few::new();
        for number in self.as_slice() {
            each.push(f(*number));
        }
        each
    }
}
