// One shelf and one rule.
use rule::Rule;
use shelf::Shelf;

#[derive(Drop)]
pub struct Desk<S: Shelf> {
    pub shelf: S,
    pub rule: Rule,
}
