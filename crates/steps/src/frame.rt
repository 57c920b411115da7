// What a walk over steps works in, for entries of any type: values in a run, sets of kinds in a check.
ghost use Rattle.std.specs.Prelude.{◌≡◌, ◌≤◌, length};

// An array with a count, and no array vector: that was tried. It asks a default of every type of entries, where any serves now, and
// makes a run some 4 % slower, where the project counts speed as behaviour.
#[derive(Drop)]
pub struct Frame<T> {
    // the stack's entries are the first `count`, the top last
    pub stack: [T; 16],
    pub count: usize,
    pub locals: [T; 8],
    ghost few: { count ≤ 16 },
    ghost sixteen: { length stack ≡ 16 },
    ghost eight: { length locals ≡ 8 },
}
