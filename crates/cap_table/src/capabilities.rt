//! What a device offers, and what its driver set of it.

ghost use Rattle.std.specs.Prelude.{◌≡◌, ◌≤◌};
ghost use Rattle.cap_table.specs.Caps.{AreCaps, AreSelectors, AtMost, greatest_limits, most_pairs, all_selectors, same_as, unset};
ghost use Rattle.cap_table.specs.Caps.{is_action_set, are_supported};
ghost use Rattle.cap_table.specs.CapSets.{IsSettable, with_cap};

use crate::support::is_supported;
use admin_wire::{CapData, RawList, VIRTIO_NET_FF_ACTION_DROP, VIRTIO_NET_FF_ACTION_RX_VQ};
use arrayvec::ArrayVec;
use ff_headers::{Kind, Limits, Selector, copied_selectors};
use std::marker::Model;

/// The queue pairs that a device has at most. This project's own.
pub const MOST_PAIRS: u8 = 16;

/// The limits that a device has at most. This project's own.
pub const GREATEST_LIMITS: Limits = Limits {
    groups: 16,
    classifiers: 64,
    rules: 1024,
    per_group: 1024,
    last_priority: 255,
    selectors: 3,
};

/// What a device offers: its queue pairs, its limits on objects, and the selectors that a classifier may ask for, with
/// types that rise strictly. Its actions are always drop and queue.
#[derive(Debug, Drop)]
pub struct DeviceCaps {
    pairs: u8,
    limits: Limits,
    selectors: ArrayVec<Selector, 5>,
}

impl Model for DeviceCaps {
    ghost use Rattle.cap_table.specs.Caps.{CapsParts, AreCaps};

    ghost Value = { CapsParts };

    ghost view = { λ c. record { pairs = c.pairs; limits = c.limits; selectors = c.selectors.items } };

    ghost invariant = { λ c. AreCaps (record { pairs = c.pairs; limits = c.limits; selectors = c.selectors.items }) };
}

impl DeviceCaps {
    /// A device with at least one queue pair, [`MOST_PAIRS`] at most, limits up to [`GREATEST_LIMITS`], and these
    /// selectors, whose types rise strictly.
    pub fn new(pairs: u8, limits: Limits, selectors: ArrayVec<Selector, 5>) -> DeviceCaps
        requires some_pair { 1 ≤ pairs }
        requires pairs { pairs ≤ most_pairs }
        requires limits { AtMost limits greatest_limits }
        requires selectors { AreSelectors selectors.items }
        ensures { result ≡ record { pairs = pairs; limits = limits; selectors = selectors.items } }
    {
        DeviceCaps {
            pairs,
            limits,
            selectors,
        }
    }

    /// A device with at least one queue pair, [`MOST_PAIRS`] at most, limits up to [`GREATEST_LIMITS`], and for each
    /// header a selector of ones, any part of whose mask may be asked for.
    pub fn with_all_selectors(pairs: u8, limits: Limits) -> DeviceCaps
        requires some_pair { 1 ≤ pairs }
        requires pairs { pairs ≤ most_pairs }
        requires limits { AtMost limits greatest_limits }
        ensures { result ≡ record { pairs = pairs; limits = limits; selectors = all_selectors } }
    {
        DeviceCaps::new(pairs, limits, all_selectors())
    }

    /// The queue pairs: at least one, and [`MOST_PAIRS`] at most.
    pub fn pairs(&self) -> u8
        ensures value { result ≡ self.now.pairs }
        ensures ranges { AreCaps self.now }
    {
        self.pairs
    }

    /// The device's limits.
    pub fn limits(&self) -> &Limits
        ensures value { result.now ≡ self.now.limits }
        ensures ranges { AreCaps self.now }
    {
        &self.limits
    }

    /// The selectors that a classifier may ask for, by rising type.
    pub fn selectors(&self) -> &[Selector]
        ensures value { result.now ≡ self.now.selectors }
        ensures ranges { AreCaps self.now }
    {
        self.selectors.as_slice()
    }
}

/// What a driver set: its limits, selectors with types that rise strictly, and its actions.
#[derive(Debug, Drop)]
pub struct DriverCaps {
    limits: Limits,
    selectors: ArrayVec<Selector, 5>,
    drop: bool,
    queue: bool,
}

impl Model for DriverCaps {
    ghost use Rattle.cap_table.specs.Caps.{DriverParts, AreSelectors};

    ghost Value = { DriverParts };

    ghost view = { λ c. record { limits = c.limits; selectors = c.selectors.items; drops = c.drop; queues = c.queue } };

    ghost invariant = { λ c. AreSelectors c.selectors.items };
}

impl DriverCaps {
    /// Before the driver sets anything: no object, no selector and no action.
    pub fn unset() -> DriverCaps
        ensures { result ≡ unset }
    {
        DriverCaps {
            limits: Limits {
                groups: 0,
                classifiers: 0,
                rules: 0,
                per_group: 0,
                last_priority: 0,
                selectors: 0,
            },
            selectors: ArrayVec::new(),
            drop: false,
            queue: false,
        }
    }

    /// All that the device offers.
    pub fn same_as(device: &DeviceCaps) -> DriverCaps
        ensures { result ≡ same_as device.now }
    {
        DriverCaps {
            limits: device.limits,
            selectors: copied_selectors(device.selectors.as_slice()),
            drop: true,
            queue: true,
        }
    }

    /// The limits that the driver set.
    pub fn limits(&self) -> &Limits
        ensures { result.now ≡ self.now.limits }
    {
        &self.limits
    }

    /// The selectors that the driver asked for, by rising type.
    pub fn selectors(&self) -> &[Selector]
        ensures value { result.now ≡ self.now.selectors }
        ensures good { AreSelectors self.now.selectors }
    {
        self.selectors.as_slice()
    }

    /// Whether the driver set the action with this byte.
    pub fn has_action(&self, action: u8) -> bool
        ensures { result ≡ is_action_set self.now action }
    {
        match action {
            VIRTIO_NET_FF_ACTION_DROP => self.drop,
            VIRTIO_NET_FF_ACTION_RX_VQ => self.queue,
            _ => false,
        }
    }

    /// Whether the driver's capability has each selector of a list, and the list is within the driver's limit.
    pub fn has_selectors(&self, list: &[Selector]) -> bool
        ensures { result ≡ are_supported self.now.limits.selectors self.now.selectors list.now }
    {
        list.iter().enumerate().all(|(place, selector)| is_supported(
            self.limits.selectors,
            self.selectors.as_slice(),
            place,
            selector,
        ))
    }

    /// An equal one. It takes no memory.
    pub fn copy(&self) -> DriverCaps
        ensures { result ≡ self.now }
    {
        DriverCaps {
            limits: self.limits,
            selectors: copied_selectors(self.selectors.as_slice()),
            drop: self.drop,
            queue: self.queue,
        }
    }

    /// Replaces the capability by the wanted one, and keeps the others.
    #[tactic(auto, using(crate::proofs::SettingLemmas::selectors_that_rise))]
    pub fn set(&mut self, wanted: &CapData)
        requires settable { IsSettable wanted.now }
        ensures { self.new ≡ with_cap self.old wanted.now }
    {
        match wanted {
            CapData::Limits(limits) => self.limits = *limits,
            CapData::Selectors(RawList::Good(list)) => self.selectors = copied_selectors(
                list.as_slice(),
            ),
            CapData::Actions(actions) => {
                self.drop = actions.drop;
                self.queue = actions.queue;
            }
            CapData::Selectors(RawList::Odd) | CapData::Other(_) => {}
        }
    }
}

/// A selector of ones for each header, of which any part may be asked for.
fn all_selectors() -> ArrayVec<Selector, 5>
    ensures { result.items ≡ all_selectors }
{
    let mut selectors = ArrayVec::new();
    selectors.push(Selector::new(Kind::Eth, 1, &[255; 14]));
    selectors.push(Selector::new(Kind::Ipv4, 1, &[255; 20]));
    selectors.push(Selector::new(Kind::Ipv6, 1, &[255; 40]));
    selectors.push(Selector::new(Kind::Tcp, 1, &[255; 20]));
    selectors.push(Selector::new(Kind::Udp, 1, &[255; 8]));
    selectors
}
