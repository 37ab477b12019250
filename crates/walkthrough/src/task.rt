//! The task: the state of a filter goes into six cells, from 509 over the last one, 511, to 2, and is read back.
use histories::call::Call;

pub const TASK: [Call; 20] = [
    Call::Greet,
    Call::Read { address: 0 },
    Call::Write {
        address: 509,
        value: 1000,
    },
    Call::Open,
    Call::Clear,
    // first waits for the rest of the cycle
    Call::Write {
        address: 3,
        value: 7,
    },
    Call::Fill { value: 0 },
    // after a fill the rest is longer than a polling
    Call::Write {
        address: 3,
        value: 8,
    },
    Call::Settle,
    Call::Write {
        address: 509,
        value: 1000,
    },
    Call::Write {
        address: 510,
        value: 1001,
    },
    Call::Write {
        address: 511,
        value: 1002,
    },
    Call::Write {
        address: 0,
        value: 1003,
    },
    Call::Write {
        address: 1,
        value: 1004,
    },
    Call::Write {
        address: 2,
        value: 1005,
    },
    Call::Erase { address: 512 },
    Call::Shut,
    Call::Write {
        address: 0,
        value: 9,
    },
    Call::Run {
        address: 509,
        count: 6,
    },
    Call::Read { address: 3 },
];
