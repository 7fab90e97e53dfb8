//! The limits that the tests' devices and tables have.

use ff_headers::Limits;

pub const LIMITS: Limits = Limits {
    groups: 2,
    classifiers: 4,
    rules: 8,
    per_group: 8,
    last_priority: 15,
    selectors: 3,
};
