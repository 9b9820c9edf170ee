//! The choices of `or`.

ghost use Rattle.std.specs.Prelude.{◌≡◌};
ghost use Rattle.gp_cli.specs.Choices.{seeded};

use gp_run::Chooser;
use rand_core::SeedableRng;
use rand_core::utils::NextWord;
use rand_pcg::Lcg64Xsh32;

/// Chooses by the lowest bits of the words of a generator.
#[derive(Drop)]
pub(crate) struct Choices {
    generator: Lcg64Xsh32,
}

impl Choices {
    /// The choices of a seed.
    pub(crate) fn of_seed(seed: u64) -> Choices
        ensures { result.generator ≡ seeded seed }
    {
        Choices {
            generator: Lcg64Xsh32::seed_from_u64(seed),
        }
    }
}

impl Chooser for Choices {
    ghost use Rattle.rand_pcg.specs.Pcg.{pcg32};
    ghost use Rattle.gp_cli.specs.Choices.{is_odd};

    type State = Lcg64Xsh32;

    ghost state = { λ c. c.generator };

    ghost answer = { λ s. is_odd (pcg32 s).0 };

    ghost next = { λ s. (pcg32 s).1 };

    fn pick(&mut self) -> bool {
        self.generator.next_word() % 2 == 1
    }
}
