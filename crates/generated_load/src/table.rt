//! The table of a seed.

ghost use Rattle.std.specs.Prelude.{◌≡◌, ◌<◌, ◌≤◌, ◌^◌, IfOk};
ghost use Rattle.ntuple_text.specs.Spellable.{IsActionOf, IsSpellable};
ghost use Rattle.ntuple_text.specs.TableMaps.{location_count};
ghost use Rattle.generated_load.specs.DrawnTables.{IsSpelled, action_at, drawn_criteria, drawn_spec, drawn_specs};
ghost use Rattle.generated_load.specs.DrawnTables.{drawn_table, ip_criteria, load_caps, private_address, tcp_criteria};
ghost use Rattle.generated_load.specs.DrawnTables.{udp_criteria, whole};

use crate::draws::draw;
use cap_table::{DeviceCaps, GREATEST_LIMITS, MOST_PAIRS};
use ntuple_text::{Flow, Part, Spec, Table, TableDo};
use std::alloc::{AllocError, Global};

/// How many locations a table has.
const LOCATIONS: u16 = 1024;

/// What a spec compares.
#[derive(Clone, Copy, Debug)]
pub struct Criteria {
    pub flow: Flow,
    pub src: Option<Part>,
    pub dst: Option<Part>,
    pub dst_port: Option<Part>,
}

/// The device that a load is for.
pub fn load_caps() -> DeviceCaps
    ensures { result ≡ load_caps }
{
    DeviceCaps::with_all_selectors(MOST_PAIRS, GREATEST_LIMITS)
}

/// The table that is drawn from a seed, with a spec at each location, and the state after it.
pub fn drawn_table(alloc: Global, seed: u64) -> Result<(u64, Table), AllocError>
    ensures state { IfOk result (λ drawn. drawn.0 ≡ (drawn_specs seed).0) }
    ensures table { IfOk result (λ drawn. drawn.1 ≡ drawn_table seed) }
{
    let mut table = Table::empty(alloc, MOST_PAIRS)?;
    let mut x = seed;
    for loc in 0..LOCATIONS {
        let (next, spec) = drawn_spec(loc, x);
        table.set(spec);
        x = next;
    }
    Ok((x, table))
}

/// The spec at a location, and the state after it.
#[tactic(auto, unfolding(crate::specs::DrawnTables::drawn_spec))]
fn drawn_spec(loc: u16, x: u64) -> (u64, Spec)
    requires { loc < location_count }
    ensures value { result ≡ drawn_spec loc x }
    ensures spellable { IsSpellable 16 result.1 }
    ensures loc { result.1.loc ≡ loc }
{
    let (x, criteria) = drawn_criteria(x);
    let (x, number) = draw(x, 17);
    let spec = Spec {
        flow: criteria.flow,
        src: criteria.src,
        dst: criteria.dst,
        proto: None,
        class: None,
        src_port: None,
        dst_port: criteria.dst_port,
        action: action_at(number as u8),
        loc,
    };
    (x, spec)
}

/// What a number below 17 has a spec do: the last one is a drop.
fn action_at(number: u8) -> TableDo
    requires { number ≤ 16 }
    ensures value { result ≡ action_at number }
    ensures queue { IsActionOf 16 result }
{
    if number == 16 {
        TableDo::Drop
    } else {
        TableDo::Queue(number)
    }
}

/// What a spec compares, and the state after it.
#[tactic(auto, unfolding(crate::specs::DrawnTables::drawn_criteria))]
fn drawn_criteria(x: u64) -> (u64, Criteria)
    ensures value { result ≡ drawn_criteria x }
    ensures spelled { IsSpelled result.1 }
{
    let (x, kind) = draw(x, 3);
    match kind {
        0 => udp_criteria(x),
        1 => tcp_criteria(x),
        _ => ip_criteria(x),
    }
}

/// A UDP destination port.
#[tactic(auto, unfolding(crate::specs::DrawnTables::udp_criteria))]
fn udp_criteria(x: u64) -> (u64, Criteria)
    ensures value { result ≡ udp_criteria x }
    ensures spelled { IsSpelled result.1 }
{
    let (x, port) = draw(x, 4096);
    let criteria = Criteria {
        flow: Flow::Udp4,
        src: None,
        dst: None,
        dst_port: whole(port),
    };
    (x, criteria)
}

/// A source network of 256 addresses, and a TCP destination port.
#[tactic(auto, unfolding(crate::specs::DrawnTables::tcp_criteria))]
fn tcp_criteria(x: u64) -> (u64, Criteria)
    ensures value { result ≡ tcp_criteria x }
    ensures spelled { IsSpelled result.1 }
{
    let (x, net) = draw(x, 16);
    let (x, port) = draw(x, 1024);
    let source = Part {
        value: u128::from(private_address(0, net, 0)),
        skip: 255,
    };
    let criteria = Criteria {
        flow: Flow::Tcp4,
        src: Some(source),
        dst: None,
        dst_port: whole(port),
    };
    (x, criteria)
}

/// A destination address.
#[tactic(auto, unfolding(crate::specs::DrawnTables::ip_criteria))]
fn ip_criteria(x: u64) -> (u64, Criteria)
    ensures value { result ≡ ip_criteria x }
    ensures spelled { IsSpelled result.1 }
{
    let (x, net) = draw(x, 16);
    let (x, host) = draw(x, 256);
    let criteria = Criteria {
        flow: Flow::Ip4,
        src: None,
        dst: whole(private_address(1, net, host)),
        dst_port: None,
    };
    (x, criteria)
}

/// A field that is compared in every bit.
fn whole(value: u64) -> Option<Part>
    ensures { result ≡ whole value }
{
    Some(Part {
        value: u128::from(value),
        skip: 0,
    })
}

/// The IPv4 address 10.SECOND.THIRD.FOURTH.
fn private_address(second: u64, third: u64, fourth: u64) -> u64
    requires second { second < 256 }
    requires third { third < 256 }
    requires fourth { fourth < 256 }
    ensures value { result ≡ private_address second third fourth }
    ensures small { result < 2 ^ 32 }
{
    ((10 * 256 + second) * 256 + third) * 256 + fourth
}
