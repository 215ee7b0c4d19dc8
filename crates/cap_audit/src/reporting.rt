//! The findings in words.

ghost use Rattle.std.specs.Prelude.{◌≡◌, ◌++◌, IfOk, OnOk};
ghost use Rattle.cap_audit.specs.Report.{what_text as what_text_of, finding_line, report_of};

use crate::finding::{Finding, Findings, What};
use cap_base::NoMemory;
use cap_image::{push_decimal, push_number};
use std::alloc::Global;

/// A line for each finding, and a last line with their number.
///
/// `NoMemory` comes where the machine refuses memory for the text.
#[tactic(auto, unfolding(crate::specs::Report::report_of), using(crate::proofs::Below::lines_none, crate::proofs::Below::lines_more))]
pub fn report(alloc: Global, findings: &Findings) -> Result<Vec<u8>, NoMemory>
    ensures { IfOk result (λ text. text.items ≡ report_of findings.now) }
{
    let mut text = Vec::new(alloc);
    for finding in findings.as_slice() {
        push_line(&mut text, finding)?;
    }
    text.extend_from_slice(b"findings ")?;
    push_decimal(&mut text, findings.len() as u64)?;
    text.extend_from_slice(b"\n")?;
    Ok(text)
}

/// Appends the line of a finding.
#[tactic(auto, unfolding(crate::specs::Report::finding_line))]
fn push_line(text: &mut Vec<u8>, finding: &Finding) -> Result<(), NoMemory>
    ensures { OnOk result (text.new.items ≡ text.old.items ++ finding_line finding.now) }
{
    text.extend_from_slice(b"finding ")?;
    text.extend_from_slice(what_text(finding.what))?;
    text.extend_from_slice(b" object ")?;
    push_decimal(text, u64::from(finding.object))?;
    push_number(text, b" at 0x", u128::from(finding.at), 16)?;
    text.extend_from_slice(b"\n")?;
    Ok(())
}

fn what_text(what: What) -> &'static [u8]
    ensures { result.now ≡ what_text_of what }
{
    match what {
        What::Version => b"version",
        What::Object => b"object",
        What::Tag => b"tag",
        What::Word => b"word",
        What::Bytes => b"bytes",
        What::Owner => b"owner",
        What::Order => b"order",
    }
}
