//! Decisions, ports, ends and lists of numbers. Each function here does nothing: it says what types say.

ghost use Rattle.std.specs.Prelude.{◌≡◌};
ghost use Rattle.std.specs.List.{AllByRecursion};
ghost use Rattle.report_forms.specs.Fits.{AddressFits, DecisionFits, EndFits, Fit128, Fit32};
ghost use Rattle.report_forms.specs.Ranges.{PortFits};

use sefl_meaning::{Decision, End, Place};
use sn_width::{Num, Site, SymId};

fn decision_fits(decision: &Decision)
    ensures { DecisionFits decision.now }
{
    if let Decision::Copy(number) = decision {
        let _number = *number;
    }
}

pub(crate) fn decisions_fit(decisions: &[Decision])
    ensures { AllByRecursion DecisionFits decisions.now }
{
    for decision in decisions {
        decision_fits(decision);
    }
}

fn port_fits(place: &Place)
    ensures { PortFits place.now }
{
    let _port = place.port;
}

pub(crate) fn ports_fit(places: &[Place])
    ensures { AllByRecursion PortFits places.now }
{
    for place in places {
        port_fits(place);
    }
}

fn number_of_site(site: Site) -> u32
    ensures { result ≡ site.0 }
{
    site.0
}

pub(crate) fn number_of_symbol(symbol: SymId) -> u64
    ensures { result ≡ symbol.0 }
{
    symbol.0
}

pub(crate) fn end_fits(end: &End)
    ensures { EndFits end.now }
{
    if let End::Failed { site, .. } = end {
        let _number = number_of_site(*site);
    }
}

pub(crate) fn address_fits(address: i32)
    ensures { AddressFits address }
{}

pub(crate) fn ids_fit(ids: &[u32])
    ensures { Fit32 ids.now }
{
    for id in ids {
        let _id = *id;
    }
}

pub(crate) fn values_fit(values: &[Num])
    ensures { Fit128 values.now }
{
    for value in values {
        let _value = *value;
    }
}
