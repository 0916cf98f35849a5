// The tables A_1 to A_9 and A_11 to A_21 of arabic.rs. A_0 has a file of its own.
use snowball::tables::{Among, Backward, Forward};
use std::marker::PhantomData;

pub const A_1: Among<'static, Backward> = Among {
    rows: &[
        [0xD8, 0xA2, 0, 0, 0, 0],
        [0xD8, 0xA3, 0, 0, 0, 0],
        [0xD8, 0xA4, 0, 0, 0, 0],
        [0xD8, 0xA5, 0, 0, 0, 0],
        [0xD8, 0xA6, 0, 0, 0, 0],
    ],
    lens: &[2, 2, 2, 2, 2],
    links: &[None, None, None, None, None],
    classes: &[1, 1, 2, 1, 3],
    direction: PhantomData,
};

pub const A_2: Among<'static, Forward> = Among {
    rows: &[
        [0xD8, 0xA2, 0, 0, 0, 0],
        [0xD8, 0xA3, 0, 0, 0, 0],
        [0xD8, 0xA4, 0, 0, 0, 0],
        [0xD8, 0xA5, 0, 0, 0, 0],
        [0xD8, 0xA6, 0, 0, 0, 0],
    ],
    lens: &[2, 2, 2, 2, 2],
    links: &[None, None, None, None, None],
    classes: &[1, 1, 2, 1, 3],
    direction: PhantomData,
};

pub const A_3: Among<'static, Forward> = Among {
    rows: &[
        [0xD8, 0xA7, 0xD9, 0x84, 0, 0],
        [0xD8, 0xA8, 0xD8, 0xA7, 0xD9, 0x84],
        [0xD9, 0x83, 0xD8, 0xA7, 0xD9, 0x84],
        [0xD9, 0x84, 0xD9, 0x84, 0, 0],
    ],
    lens: &[4, 6, 6, 4],
    links: &[None, None, None, None],
    classes: &[2, 1, 1, 2],
    direction: PhantomData,
};

pub const A_4: Among<'static, Forward> = Among {
    rows: &[
        [0xD8, 0xA3, 0xD8, 0xA2, 0, 0],
        [0xD8, 0xA3, 0xD8, 0xA3, 0, 0],
        [0xD8, 0xA3, 0xD8, 0xA4, 0, 0],
        [0xD8, 0xA3, 0xD8, 0xA5, 0, 0],
        [0xD8, 0xA3, 0xD8, 0xA7, 0, 0],
    ],
    lens: &[4, 4, 4, 4, 4],
    links: &[None, None, None, None, None],
    classes: &[2, 1, 3, 5, 4],
    direction: PhantomData,
};

pub const A_5: Among<'static, Forward> = Among {
    rows: &[[0xD9, 0x81, 0, 0, 0, 0], [0xD9, 0x88, 0, 0, 0, 0]],
    lens: &[2, 2],
    links: &[None, None],
    classes: &[1, 2],
    direction: PhantomData,
};

pub const A_6: Among<'static, Forward> = Among {
    rows: &[
        [0xD8, 0xA7, 0xD9, 0x84, 0, 0],
        [0xD8, 0xA8, 0xD8, 0xA7, 0xD9, 0x84],
        [0xD9, 0x83, 0xD8, 0xA7, 0xD9, 0x84],
        [0xD9, 0x84, 0xD9, 0x84, 0, 0],
    ],
    lens: &[4, 6, 6, 4],
    links: &[None, None, None, None],
    classes: &[2, 1, 1, 2],
    direction: PhantomData,
};

pub const A_7: Among<'static, Forward> = Among {
    rows: &[
        [0xD8, 0xA8, 0, 0, 0, 0],
        [0xD8, 0xA8, 0xD8, 0xA8, 0, 0],
        [0xD9, 0x83, 0xD9, 0x83, 0, 0],
    ],
    lens: &[2, 4, 4],
    links: &[None, Some(0), None],
    classes: &[1, 2, 3],
    direction: PhantomData,
};

pub const A_8: Among<'static, Forward> = Among {
    rows: &[
        [0xD8, 0xB3, 0xD8, 0xA3, 0, 0],
        [0xD8, 0xB3, 0xD8, 0xAA, 0, 0],
        [0xD8, 0xB3, 0xD9, 0x86, 0, 0],
        [0xD8, 0xB3, 0xD9, 0x8A, 0, 0],
    ],
    lens: &[4, 4, 4, 4],
    links: &[None, None, None, None],
    classes: &[4, 2, 3, 1],
    direction: PhantomData,
};

pub const A_9: Among<'static, Forward> = Among {
    rows: &[
        [0xD8, 0xAA, 0xD8, 0xB3, 0xD8, 0xAA],
        [0xD9, 0x86, 0xD8, 0xB3, 0xD8, 0xAA],
        [0xD9, 0x8A, 0xD8, 0xB3, 0xD8, 0xAA],
    ],
    lens: &[6, 6, 6],
    links: &[None, None, None],
    classes: &[1, 1, 1],
    direction: PhantomData,
};

// A_10 of the Rust is left out: its step, r_Suffix_Noun_Step1a, cuts in no word, as the crate old_noun shows.

pub const A_11: Among<'static, Backward> = Among {
    rows: &[[0xD9, 0x86, 0, 0, 0, 0]],
    lens: &[2],
    links: &[None],
    classes: &[1],
    direction: PhantomData,
};

pub const A_12: Among<'static, Backward> = Among {
    rows: &[
        [0xD9, 0x88, 0, 0, 0, 0],
        [0xD9, 0x8A, 0, 0, 0, 0],
        [0xD8, 0xA7, 0, 0, 0, 0],
    ],
    lens: &[2, 2, 2],
    links: &[None, None, None],
    classes: &[1, 1, 1],
    direction: PhantomData,
};

pub const A_13: Among<'static, Backward> = Among {
    rows: &[[0xD8, 0xA7, 0xD8, 0xAA, 0, 0]],
    lens: &[4],
    links: &[None],
    classes: &[1],
    direction: PhantomData,
};

pub const A_14: Among<'static, Backward> = Among {
    rows: &[[0xD8, 0xAA, 0, 0, 0, 0]],
    lens: &[2],
    links: &[None],
    classes: &[1],
    direction: PhantomData,
};

pub const A_15: Among<'static, Backward> = Among {
    rows: &[[0xD8, 0xA9, 0, 0, 0, 0]],
    lens: &[2],
    links: &[None],
    classes: &[1],
    direction: PhantomData,
};

pub const A_16: Among<'static, Backward> = Among {
    rows: &[[0xD9, 0x8A, 0, 0, 0, 0]],
    lens: &[2],
    links: &[None],
    classes: &[1],
    direction: PhantomData,
};

pub const A_17: Among<'static, Backward> = Among {
    rows: &[
        [0xD9, 0x83, 0, 0, 0, 0],
        [0xD9, 0x83, 0xD9, 0x85, 0, 0],
        [0xD9, 0x87, 0xD9, 0x85, 0, 0],
        [0xD9, 0x83, 0xD9, 0x86, 0, 0],
        [0xD9, 0x87, 0xD9, 0x86, 0, 0],
        [0xD9, 0x87, 0, 0, 0, 0],
        [0xD9, 0x83, 0xD9, 0x85, 0xD9, 0x88],
        [0xD9, 0x86, 0xD9, 0x8A, 0, 0],
        [0xD9, 0x83, 0xD9, 0x85, 0xD8, 0xA7],
        [0xD9, 0x87, 0xD9, 0x85, 0xD8, 0xA7],
        [0xD9, 0x86, 0xD8, 0xA7, 0, 0],
        [0xD9, 0x87, 0xD8, 0xA7, 0, 0],
    ],
    lens: &[2, 4, 4, 4, 4, 2, 6, 4, 6, 6, 4, 4],
    links: &[
        None, None, None, None, None, None, None, None, None, None, None, None,
    ],
    classes: &[1, 2, 2, 2, 2, 1, 3, 2, 3, 3, 2, 2],
    direction: PhantomData,
};

pub const A_18: Among<'static, Backward> = Among {
    rows: &[
        [0xD9, 0x86, 0, 0, 0, 0],
        [0xD9, 0x88, 0xD9, 0x86, 0, 0],
        [0xD9, 0x8A, 0xD9, 0x86, 0, 0],
        [0xD8, 0xA7, 0xD9, 0x86, 0, 0],
        [0xD8, 0xAA, 0xD9, 0x86, 0, 0],
        [0xD9, 0x8A, 0, 0, 0, 0],
        [0xD8, 0xA7, 0, 0, 0, 0],
        [0xD8, 0xAA, 0xD9, 0x85, 0xD8, 0xA7],
        [0xD9, 0x86, 0xD8, 0xA7, 0, 0],
        [0xD8, 0xAA, 0xD8, 0xA7, 0, 0],
        [0xD8, 0xAA, 0, 0, 0, 0],
    ],
    lens: &[2, 4, 4, 4, 4, 2, 2, 6, 4, 4, 2],
    links: &[
        None,
        Some(0),
        Some(0),
        Some(0),
        Some(0),
        None,
        None,
        Some(6), // 062A 0645 0627 ends with 0627
        Some(6),
        Some(6),
        None,
    ],
    classes: &[2, 4, 4, 4, 3, 2, 2, 5, 3, 3, 1],
    direction: PhantomData,
};

pub const A_19: Among<'static, Backward> = Among {
    rows: &[
        [0xD8, 0xAA, 0xD9, 0x85, 0, 0],
        [0xD9, 0x88, 0xD8, 0xA7, 0, 0],
    ],
    lens: &[4, 4],
    links: &[None, None],
    classes: &[1, 1],
    direction: PhantomData,
};

pub const A_20: Among<'static, Backward> = Among {
    rows: &[
        [0xD9, 0x88, 0, 0, 0, 0],
        [0xD8, 0xAA, 0xD9, 0x85, 0xD9, 0x88],
    ],
    lens: &[2, 6],
    links: &[None, Some(0)],
    classes: &[1, 2],
    direction: PhantomData,
};

pub const A_21: Among<'static, Backward> = Among {
    rows: &[[0xD9, 0x89, 0, 0, 0, 0]],
    lens: &[2],
    links: &[None],
    classes: &[1],
    direction: PhantomData,
};
