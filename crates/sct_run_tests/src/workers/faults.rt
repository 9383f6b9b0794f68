//! Sites that failed, and the fault that is reported of them.

use sct_workers::{SiteFault, WorkFault};

pub(crate) struct Failed {
    pub(crate) sites: &'static [SiteFault],
    pub(crate) reported: Option<SiteFault>,
}

pub(crate) static FAILED: [Failed; 7] = [
    Failed {
        sites: &[],
        reported: None,
    },
    // a worker was held, and a call of another was refused with 66
    Failed {
        sites: &[
            SiteFault::Working(WorkFault::Refused { number: 42 }),
            SiteFault::Working(WorkFault::Held),
        ],
        reported: Some(SiteFault::Working(WorkFault::Held)),
    },
    // 65 comes before 61, and 61 before a desk that is not closed
    Failed {
        sites: &[
            SiteFault::Working(WorkFault::Held),
            SiteFault::Closing(WorkFault::Refused { number: 53 }),
            SiteFault::Working(WorkFault::Memory),
        ],
        reported: Some(SiteFault::Working(WorkFault::Memory)),
    },
    // 67 comes before 65
    Failed {
        sites: &[
            SiteFault::Working(WorkFault::Memory),
            SiteFault::Working(WorkFault::NoWorker),
        ],
        reported: Some(SiteFault::Working(WorkFault::NoWorker)),
    },
    // the least number of several refusals, wherever it is
    Failed {
        sites: &[
            SiteFault::Working(WorkFault::Refused { number: 44 }),
            SiteFault::Working(WorkFault::Refused { number: 42 }),
            SiteFault::Working(WorkFault::Refused { number: 43 }),
        ],
        reported: Some(SiteFault::Working(WorkFault::Refused { number: 42 })),
    },
    // a worker's refusal comes before a desk that is not closed, even if its number is greater
    Failed {
        sites: &[
            SiteFault::Closing(WorkFault::Refused { number: 53 }),
            SiteFault::Working(WorkFault::Refused { number: 55 }),
        ],
        reported: Some(SiteFault::Working(WorkFault::Refused { number: 55 })),
    },
    // desks that are not closed are reported site by site
    Failed {
        sites: &[
            SiteFault::Closing(WorkFault::Refused { number: 54 }),
            SiteFault::Closing(WorkFault::Refused { number: 53 }),
        ],
        reported: Some(SiteFault::Closing(WorkFault::Refused { number: 54 })),
    },
];
