// Lent bytes of which every line spells a value.
ghost use Rattle.std.specs.List.{AllByRecursion};
ghost use Rattle.lines.specs.Spelled.{lines, Valued};
ghost use Rattle.lines.specs.Once.{all-prop};

#[derive(Drop)]
pub struct Lines<'a> {
    pub text: &'a [u8],
    // the values: each line spells one, and no other
    pub ghost values: { AllByRecursion Valued (lines text.now) } by { all-prop (lines text.now) },
}
