// The boxes that are played, as tables.

// A box: its name, its keys, the numbers of its table row by row, and the most states that the learner allows.
#[derive(Clone, Copy)]
pub struct Example {
    pub name: &'static str,
    pub keys: usize,
    pub most: u32,
    pub numbers: &'static [u32],
}

// Key 1 changes the lamp.
const LAMP: Example = Example {
    name: "lamp",
    keys: 2,
    most: 2,
    numbers: &[0, 0, 1, 9, 1, 0],
};

// The lamp, for a learner that allows one state only.
const LAMP_OF_ONE_STATE: Example = Example { most: 1, ..LAMP };

// No key changes anything.
const CONSTANT: Example = Example {
    name: "constant",
    keys: 3,
    most: 4,
    numbers: &[5, 0, 0, 0],
};

// The lamp is on after every seventh press.
const COUNTER: Example = Example {
    name: "counter of 7",
    keys: 1,
    most: 10,
    numbers: &[9, 1, 0, 2, 0, 3, 0, 4, 0, 5, 0, 6, 0, 0],
};

// The keys 2 0 3 1 2 in this order open it, and any other key closes it.
const LOCK: Example = Example {
    name: "lock",
    keys: 4,
    most: 6,
    numbers: &[
        0, 0, 0, 1, 0, //
        0, 2, 0, 0, 0, //
        0, 0, 0, 0, 3, //
        0, 0, 4, 0, 0, //
        0, 0, 0, 5, 0, //
        1, 0, 0, 0, 0,
    ],
};

pub const EXAMPLES: [Example; 5] = [LAMP, LAMP_OF_ONE_STATE, CONSTANT, COUNTER, LOCK];
