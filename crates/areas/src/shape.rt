// What a memory is laid out for: how many keys and states, and its length.
ghost use Rattle.std.specs.Prelude.{◌≤◌};
ghost use Rattle.areas.specs.declared.area.Area.TheVariants.{Letters};
ghost use Rattle.areas.specs.Layout.{sized, base_of};

pub mod counting;
pub mod layout;
pub mod numbers;

// 1 to 64 keys, and at most 1 to 1,024 states.
#[derive(Clone, Copy)]
pub struct Counts {
    keys: u32,
    most: u32,
    ghost some_keys: { 1 ≤ keys },
    ghost few_keys: { keys ≤ 64 },
    ghost some_states: { 1 ≤ most },
    ghost few_states: { most ≤ 1024 },
}

// All areas before the letters are within the length.
#[derive(Clone, Copy)]
pub struct Shape {
    counts: Counts,
    length: usize,
    ghost fits: { base_of (sized counts.keys counts.most length) Letters ≤ length },
}
