//! Ends.

ghost use Rattle.run_text.specs.Tokens.{Gains};
ghost use Rattle.run_text.specs.Forms.{fault_data, message_data, failure_data, end_data};

use crate::JsonText;
use crate::json_laws::objects_are_written;
use sefl_meaning::{End, Failure};
use sn_width::{NoMemory, Site};

fn write_fault(out: &mut JsonText, fault: u32, site: Site) -> Result<(), NoMemory>
    ensures { Gains (fault_data fault site.0) result out.old out.new }
{
    objects_are_written();
    out.begin_object()?;
    out.key("fault")?;
    out.id(fault)?;
    out.key("site")?;
    out.id(site.0)?;
    out.end_object()?;
    Ok(())
}

fn write_message(out: &mut JsonText, site: Site, text: &str) -> Result<(), NoMemory>
    ensures { Gains (message_data site.0 text.now) result out.old out.new }
{
    objects_are_written();
    out.begin_object()?;
    out.key("fault")?;
    out.count(9)?;
    out.key("site")?;
    out.id(site.0)?;
    out.key("text")?;
    out.string(text)?;
    out.end_object()?;
    Ok(())
}

fn write_failure(out: &mut JsonText, failure: &Failure, site: Site) -> Result<(), NoMemory>
    ensures { Gains (failure_data failure.now site.0) result out.old out.new }
{
    match failure {
        Failure::Layout(fault) => write_fault(out, u32::from(fault.number()), site),
        Failure::Constraint => write_fault(out, 8, site),
        Failure::Message { text } => write_message(out, site, text.text()),
    }
}

/// An end: `"stopped"`, `"delivered"`, `"cut"`, or a fault's number from 1 to 9 with its site, and
/// with 9 the text of the Fail.
#[tactic(auto, unfolding(crate::specs::Forms::end_data))]
pub fn write_end(out: &mut JsonText, end: &End) -> Result<(), NoMemory>
    ensures { Gains (end_data end.now) result out.old out.new }
{
    match end {
        End::Stopped => out.string("stopped"),
        End::Delivered => out.string("delivered"),
        End::Cut => out.string("cut"),
        End::Failed { failure, site } => write_failure(out, failure, *site),
    }
}
