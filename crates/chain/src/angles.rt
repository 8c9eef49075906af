// The angle of one rotary in a joint set.
ghost use Rattle.std.specs.Prelude.{◌≡◌};
ghost use Rattle.chain.specs.Angles as S;

use crate::Joints;

impl Joints {
    // Of the first rotary at 0; of the second at any other number. No enum, as at `Question` of crate extremes.
    #[tactic(auto, unfolding(crate::specs::Angles::angle_of))]
    pub fn angle(self, rotary: usize) -> f64
        ensures { result ≡ S.angle_of rotary self }
    {
        if rotary == 0 { self.a0 } else { self.a1 }
    }
}
