// The kinds of cases, in the order in which they are checked. Each is written out: a constant's value can call no function.
use crate::case::Kind;
use crate::figures::Tests;
use crate::looks::Looks;
use crate::papers::{Papers, Writings};
use crate::talks::Talks;
use crate::trials::{Calls, Runs, Stack};
use draws::damage::Damage;
use draws::sheets::Shape;

const SHORT: (u16, u16) = (1, 30);

const LONG: (u16, u16) = (4_000, 4_000);

// Looks at touches.
pub const LOOKS: [Kind<Looks>; 10] = [
    Kind {
        name: "looks at flat",
        cases: 300,
        last: SHORT,
        about: Looks {
            shape: Shape::Flat,
            one_in: 3,
        },
    },
    Kind {
        name: "looks at ramps",
        cases: 300,
        last: SHORT,
        about: Looks {
            shape: Shape::Ramp,
            one_in: 3,
        },
    },
    Kind {
        name: "looks at noise",
        cases: 300,
        last: SHORT,
        about: Looks {
            shape: Shape::Noise,
            one_in: 3,
        },
    },
    Kind {
        name: "looks at walks",
        cases: 300,
        last: SHORT,
        about: Looks {
            shape: Shape::Walk,
            one_in: 3,
        },
    },
    Kind {
        name: "looks at holes",
        cases: 300,
        last: SHORT,
        about: Looks {
            shape: Shape::Holes,
            one_in: 3,
        },
    },
    Kind {
        name: "looks at extremes",
        cases: 300,
        last: SHORT,
        about: Looks {
            shape: Shape::Extreme,
            one_in: 3,
        },
    },
    Kind {
        name: "looks at free heights",
        cases: 300,
        last: SHORT,
        about: Looks {
            shape: Shape::Free,
            one_in: 3,
        },
    },
    Kind {
        name: "looks at full beds",
        cases: 300,
        last: (1, 8),
        about: Looks {
            shape: Shape::Walk,
            one_in: 1,
        },
    },
    Kind {
        name: "looks at long beds",
        cases: 24,
        last: LONG,
        about: Looks {
            shape: Shape::Walk,
            one_in: 12,
        },
    },
    Kind {
        name: "looks at long beds, extremes",
        cases: 24,
        last: LONG,
        about: Looks {
            shape: Shape::Extreme,
            one_in: 500,
        },
    },
];

// Lists of calls.
pub const CALLS: [Kind<Calls>; 16] = [
    Kind {
        name: "calls on flat",
        cases: 300,
        last: SHORT,
        about: Calls {
            shape: Shape::Flat,
            stack: Stack::Table,
            calls: 16,
        },
    },
    Kind {
        name: "calls on ramps",
        cases: 300,
        last: SHORT,
        about: Calls {
            shape: Shape::Ramp,
            stack: Stack::Table,
            calls: 16,
        },
    },
    Kind {
        name: "calls on noise",
        cases: 300,
        last: SHORT,
        about: Calls {
            shape: Shape::Noise,
            stack: Stack::Table,
            calls: 16,
        },
    },
    Kind {
        name: "calls on walks",
        cases: 300,
        last: SHORT,
        about: Calls {
            shape: Shape::Walk,
            stack: Stack::Table,
            calls: 16,
        },
    },
    Kind {
        name: "calls on holes",
        cases: 300,
        last: SHORT,
        about: Calls {
            shape: Shape::Holes,
            stack: Stack::Table,
            calls: 16,
        },
    },
    Kind {
        name: "calls on extremes",
        cases: 300,
        last: SHORT,
        about: Calls {
            shape: Shape::Extreme,
            stack: Stack::Table,
            calls: 16,
        },
    },
    Kind {
        name: "calls through a record",
        cases: 300,
        last: SHORT,
        about: Calls {
            shape: Shape::Holes,
            stack: Stack::Record,
            calls: 16,
        },
    },
    Kind {
        name: "calls through a tent",
        cases: 300,
        last: SHORT,
        about: Calls {
            shape: Shape::Flat,
            stack: Stack::Tent,
            calls: 16,
        },
    },
    Kind {
        name: "calls through flip",
        cases: 300,
        last: SHORT,
        about: Calls {
            shape: Shape::Holes,
            stack: Stack::Flip,
            calls: 16,
        },
    },
    Kind {
        name: "calls through coarse",
        cases: 300,
        last: SHORT,
        about: Calls {
            shape: Shape::Walk,
            stack: Stack::Coarse,
            calls: 16,
        },
    },
    Kind {
        name: "calls through higher",
        cases: 300,
        last: SHORT,
        about: Calls {
            shape: Shape::Holes,
            stack: Stack::Higher,
            calls: 16,
        },
    },
    Kind {
        name: "calls through sum",
        cases: 300,
        last: SHORT,
        about: Calls {
            shape: Shape::Walk,
            stack: Stack::Sum,
            calls: 16,
        },
    },
    Kind {
        name: "calls through a deep stack",
        cases: 300,
        last: SHORT,
        about: Calls {
            shape: Shape::Holes,
            stack: Stack::Deep,
            calls: 16,
        },
    },
    Kind {
        name: "calls through a deep stack, extremes",
        cases: 300,
        last: SHORT,
        about: Calls {
            shape: Shape::Extreme,
            stack: Stack::Deep,
            calls: 16,
        },
    },
    Kind {
        name: "calls on beds of 100 to 400",
        cases: 60,
        last: (100, 400),
        about: Calls {
            shape: Shape::Walk,
            stack: Stack::Record,
            calls: 16,
        },
    },
    Kind {
        name: "calls on long beds",
        cases: 12,
        last: LONG,
        about: Calls {
            shape: Shape::Holes,
            stack: Stack::Record,
            calls: 8,
        },
    },
];

// Runs to the end.
pub const RUNS: [Kind<Runs>; 5] = [
    Kind {
        name: "exact runs on long beds, ramps",
        cases: 6,
        last: LONG,
        about: Runs {
            shape: Shape::Ramp,
            stack: Stack::Record,
            tolerance: Some(0),
        },
    },
    Kind {
        name: "exact runs on long beds, noise",
        cases: 6,
        last: LONG,
        about: Runs {
            shape: Shape::Noise,
            stack: Stack::Table,
            tolerance: Some(0),
        },
    },
    Kind {
        name: "exact runs on long beds, walks",
        cases: 6,
        last: LONG,
        about: Runs {
            shape: Shape::Walk,
            stack: Stack::Deep,
            tolerance: Some(0),
        },
    },
    Kind {
        name: "exact runs on long beds, extremes",
        cases: 6,
        last: LONG,
        about: Runs {
            shape: Shape::Extreme,
            stack: Stack::Sum,
            tolerance: Some(0),
        },
    },
    Kind {
        name: "certificates of short beds",
        cases: 300,
        last: SHORT,
        about: Runs {
            shape: Shape::Walk,
            stack: Stack::Record,
            tolerance: None,
        },
    },
];

// Figures in and out of range.
pub const TESTS: [Kind<Tests>; 2] = [
    Kind {
        name: "figures in and out of range",
        cases: 1_500,
        last: (1, 12),
        about: Tests { shape: Shape::Walk },
    },
    Kind {
        name: "figures, extremes",
        cases: 500,
        last: (1, 12),
        about: Tests {
            shape: Shape::Extreme,
        },
    },
];

// Records that are tested.
pub const PAPERS: [Kind<Papers>; 12] = [
    Kind {
        name: "records, whole",
        cases: 300,
        last: SHORT,
        about: Papers {
            shape: Shape::Holes,
            damage: Damage::Nowhere,
        },
    },
    Kind {
        name: "records, cut",
        cases: 300,
        last: SHORT,
        about: Papers {
            shape: Shape::Holes,
            damage: Damage::Cut,
        },
    },
    Kind {
        name: "records, too long",
        cases: 300,
        last: SHORT,
        about: Papers {
            shape: Shape::Holes,
            damage: Damage::Longer,
        },
    },
    Kind {
        name: "records, other last",
        cases: 300,
        last: SHORT,
        about: Papers {
            shape: Shape::Holes,
            damage: Damage::Last,
        },
    },
    Kind {
        name: "records, other slope",
        cases: 300,
        last: SHORT,
        about: Papers {
            shape: Shape::Holes,
            damage: Damage::Slope,
        },
    },
    Kind {
        name: "records, other slack",
        cases: 300,
        last: SHORT,
        about: Papers {
            shape: Shape::Holes,
            damage: Damage::Slack,
        },
    },
    Kind {
        name: "records, odd height",
        cases: 300,
        last: SHORT,
        about: Papers {
            shape: Shape::Holes,
            damage: Damage::Height,
        },
    },
    Kind {
        name: "records, pad bit",
        cases: 300,
        last: SHORT,
        about: Papers {
            shape: Shape::Holes,
            damage: Damage::Pad,
        },
    },
    Kind {
        name: "records, bytes changed",
        cases: 300,
        last: SHORT,
        about: Papers {
            shape: Shape::Holes,
            damage: Damage::Bytes,
        },
    },
    Kind {
        name: "records, all changed",
        cases: 300,
        last: SHORT,
        about: Papers {
            shape: Shape::Holes,
            damage: Damage::All,
        },
    },
    Kind {
        name: "records, extremes, odd height",
        cases: 300,
        last: SHORT,
        about: Papers {
            shape: Shape::Extreme,
            damage: Damage::Height,
        },
    },
    Kind {
        name: "records of long beds",
        cases: 12,
        last: LONG,
        about: Papers {
            shape: Shape::Walk,
            damage: Damage::Height,
        },
    },
];

// Records that are written.
pub const WRITINGS: [Kind<Writings>; 5] = [
    Kind {
        name: "records written, walks",
        cases: 300,
        last: SHORT,
        about: Writings { shape: Shape::Walk },
    },
    Kind {
        name: "records written, holes",
        cases: 300,
        last: SHORT,
        about: Writings {
            shape: Shape::Holes,
        },
    },
    Kind {
        name: "records written, extremes",
        cases: 300,
        last: SHORT,
        about: Writings {
            shape: Shape::Extreme,
        },
    },
    Kind {
        name: "records written, free heights",
        cases: 300,
        last: SHORT,
        about: Writings { shape: Shape::Free },
    },
    Kind {
        name: "records written, long beds",
        cases: 12,
        last: LONG,
        about: Writings { shape: Shape::Ramp },
    },
];

// Talks of the command program.
pub const TALKS: [Kind<Talks>; 8] = [
    Kind {
        name: "talks over walks",
        cases: 300,
        last: SHORT,
        about: Talks {
            over: Papers {
                shape: Shape::Walk,
                damage: Damage::Nowhere,
            },
            length: None,
        },
    },
    Kind {
        name: "talks over holes",
        cases: 300,
        last: SHORT,
        about: Talks {
            over: Papers {
                shape: Shape::Holes,
                damage: Damage::Nowhere,
            },
            length: None,
        },
    },
    Kind {
        name: "talks over extremes",
        cases: 300,
        last: SHORT,
        about: Talks {
            over: Papers {
                shape: Shape::Extreme,
                damage: Damage::Nowhere,
            },
            length: None,
        },
    },
    Kind {
        name: "talks over damaged records",
        cases: 300,
        last: SHORT,
        about: Talks {
            over: Papers {
                shape: Shape::Walk,
                damage: Damage::Bytes,
            },
            length: None,
        },
    },
    Kind {
        name: "talks over records cut off",
        cases: 100,
        last: SHORT,
        about: Talks {
            over: Papers {
                shape: Shape::Walk,
                damage: Damage::Cut,
            },
            length: None,
        },
    },
    Kind {
        name: "talks of 4,096 bytes",
        cases: 12,
        last: (100, 300),
        about: Talks {
            over: Papers {
                shape: Shape::Holes,
                damage: Damage::Nowhere,
            },
            length: Some(4_096),
        },
    },
    Kind {
        name: "talks of 4,097 bytes",
        cases: 12,
        last: (100, 300),
        about: Talks {
            over: Papers {
                shape: Shape::Holes,
                damage: Damage::Nowhere,
            },
            length: Some(4_097),
        },
    },
    Kind {
        name: "talks of 4,096 bytes over long beds",
        cases: 2,
        last: LONG,
        about: Talks {
            over: Papers {
                shape: Shape::Walk,
                damage: Damage::Nowhere,
            },
            length: Some(4_096),
        },
    },
];
