//! A value arrives at a port of an instance.

ghost use Rattle.std.specs.Prelude.{◌≡◌, ◌<◌, ◌≤◌, ℕ, Some, None, true, false, MatchOption};
ghost use Rattle.ws_isa.specs.Walk.{gather};
ghost use Rattle.df_core.specs.Core.{is_full};
ghost use Rattle.match_table.specs.Ports.{listed, is_taken, with_port, alone, SeenSo};

use crate::entry::{Arrived, Had};

/// The operands of an instance, by port.
#[derive(Clone, Copy, Debug, PartialEq, Eq)]
pub enum Operands {
    One(u64),
    Two(u64, u64),
    Three(u64, u64, u64),
}

/// What a value finds at its port: an earlier one, or none. Then the instance is still waiting with this
/// one, or has these operands.
#[derive(Clone, Copy)]
pub enum Seen {
    Old,
    Waits,
    Fills(Operands),
}

pub(crate) const NONE: Arrived = Arrived {
    had: Had {
        first: false,
        second: false,
        third: false,
    },
    first: 0,
    second: 0,
    third: 0,
};

// Whether a port has had its value.
#[inline(always)]
pub(crate) fn is_taken(arrived: Option<Arrived>, port: u8) -> bool
    ensures { result ≡ is_taken arrived port }
{
    match arrived {
        None => false,
        Some(arrived) => {
            if port == 0 {
                arrived.had.first
            } else if port == 1 {
                arrived.had.second
            } else {
                port == 2 && arrived.had.third
            }
        }
    }
}

// With a value at one more port.
#[inline(always)]
pub(crate) fn with_port(arrived: Option<Arrived>, port: u8, value: u64) -> Arrived
    ensures { result ≡ with_port arrived port value }
{
    let earlier = arrived.unwrap_or(NONE);
    let had = earlier.had;
    if port == 0 {
        Arrived {
            had: Had { first: true, ..had },
            first: value,
            ..earlier
        }
    } else if port == 1 {
        Arrived {
            had: Had {
                second: true,
                ..had
            },
            second: value,
            ..earlier
        }
    } else {
        Arrived {
            had: Had { third: true, ..had },
            third: value,
            ..earlier
        }
    }
}

// Whether all of so many ports have had values.
#[inline(always)]
fn have_all(had: Had, ports: u8) -> bool
    requires { (1 ≤ ports) × (ports ≤ 3) }
    ensures { (a b c : ℕ) → is_full (alone (record { had = had; first = a; second = b; third = c })) 0 0 ports
        ≡ result }
{
    match ports {
        1 => had.first,
        2 => had.first && had.second,
        _ => had.first && had.second && had.third,
    }
}

// The operands of an instance, if it has a value at each of so many ports.
#[inline(always)]
pub(crate) fn operands_of(arrived: Arrived, ports: u8) -> Option<Operands>
    requires { (1 ≤ ports) × (ports ≤ 3) }
    ensures { MatchOption result (is_full (alone arrived) 0 0 ports ≡ false)
        (λ operands. (is_full (alone arrived) 0 0 ports ≡ true)
        × (listed operands ≡ gather (alone arrived) 0 0 0 ports)) }
{
    if !have_all(arrived.had, ports) {
        return None;
    }
    if ports == 1 {
        Some(Operands::One(arrived.first))
    } else if ports == 2 {
        Some(Operands::Two(arrived.first, arrived.second))
    } else {
        Some(Operands::Three(arrived.first, arrived.second, arrived.third))
    }
}

// The operands of an instance with so many ports, where this is its first value.
#[inline(always)]
fn operands_first(port: u8, value: u64, ports: u8) -> Option<Operands>
    requires { (port < ports) × (ports ≤ 3) }
    ensures { MatchOption result (is_full (alone (with_port None port value)) 0 0 ports ≡ false)
        (λ operands. (is_full (alone (with_port None port value)) 0 0 ports ≡ true)
        × (listed operands ≡ gather (alone (with_port None port value)) 0 0 0 ports)) }
{
    let _ = port;
    if ports == 1 {
        Some(Operands::One(value))
    } else {
        None
    }
}

// The operands of an instance with two ports, where this value comes after others.
#[inline(always)]
fn operands_two(arrived: Arrived, port: u8, value: u64) -> Option<Operands>
    requires { port < 2 }
    ensures { MatchOption result (is_full (alone (with_port (Some arrived) port value)) 0 0 2 ≡ false)
        (λ operands. (is_full (alone (with_port (Some arrived) port value)) 0 0 2 ≡ true)
        × (listed operands ≡ gather (alone (with_port (Some arrived) port value)) 0 0 0 2)) }
{
    let had = arrived.had;
    if port == 0 {
        if had.second {
            return Some(Operands::Two(value, arrived.second));
        }
        return None;
    }
    if had.first {
        return Some(Operands::Two(arrived.first, value));
    }
    None
}

// The operands of an instance with so many ports, where this value comes after others.
#[inline(always)]
fn operands_next(arrived: Arrived, port: u8, value: u64, ports: u8) -> Option<Operands>
    requires { (port < ports) × (ports ≤ 3) }
    ensures { MatchOption result (is_full (alone (with_port (Some arrived) port value)) 0 0 ports ≡ false)
        (λ operands. (is_full (alone (with_port (Some arrived) port value)) 0 0 ports ≡ true)
        × (listed operands ≡ gather (alone (with_port (Some arrived) port value)) 0 0 0 ports)) }
{
    if ports == 2 {
        return operands_two(arrived, port, value);
    }
    let next = with_port(Some(arrived), port, value);
    operands_of(next, ports)
}

// The operands of an instance with one more value, if it has one at each of so many ports then.
#[inline(always)]
fn operands_with(arrived: Option<Arrived>, port: u8, value: u64, ports: u8) -> Option<Operands>
    requires { (port < ports) × (ports ≤ 3) }
    ensures { MatchOption result (is_full (alone (with_port arrived port value)) 0 0 ports ≡ false)
        (λ operands. (is_full (alone (with_port arrived port value)) 0 0 ports ≡ true)
        × (listed operands ≡ gather (alone (with_port arrived port value)) 0 0 0 ports)) }
{
    match arrived {
        None => operands_first(port, value, ports),
        Some(arrived) => operands_next(arrived, port, value, ports),
    }
}

// A value arrives at a port of an instance with so many.
#[inline(always)]
pub(crate) fn meet(arrived: Option<Arrived>, port: u8, value: u64, ports: u8) -> Seen
    requires { (port < ports) × (ports ≤ 3) }
    ensures { SeenSo arrived port value ports result }
{
    if is_taken(arrived, port) {
        return Seen::Old;
    }
    match operands_with(arrived, port, value, ports) {
        None => Seen::Waits,
        Some(operands) => Seen::Fills(operands),
    }
}
