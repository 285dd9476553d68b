// Findings, payloads and refusals in words.
use block::Refusal;
use stripe::{Cause, Condition, Finding};

// A text as 80 payload bytes, zeros after it.
pub fn payload_of(text: &[u8]) -> [u8; 80] {
    let mut payload = [0u8; 80];
    let count = text.len().min(80);
    payload[..count].copy_from_slice(&text[..count]);
    payload
}

pub fn print_payload(rt: &HostRuntime, payload: &[u8]) -> anyhow::Result<()> {
    for byte in payload {
        if (32..127).contains(byte) {
            let letter = char::from(*byte);
            print!(rt; "{letter}")?;
        }
    }
    println!(rt; "")?;
    Ok(())
}

fn cause_in_words(cause: Cause) -> &'static str {
    match cause {
        Cause::Blind => "gives nothing",
        Cause::Broken => "has a block whose checksum differs",
        Cause::Foreign => "has a block of another place",
        Cause::Behind => "kept an old block",
    }
}

// The bad places of a stripe, each in words.
pub fn print_findings(rt: &HostRuntime, findings: &[Finding; 8]) -> anyhow::Result<()> {
    for finding in findings {
        if let Condition::Bad(cause) = finding.condition {
            let words = cause_in_words(cause);
            print!(rt;
                "    card {}, block {} {words}",
                finding.slot, finding.block
            )?;
            if let Some(lead) = finding.lead {
                print!(rt; ", lead {lead}")?;
            }
            if finding.mended {
                print!(rt; ", and was mended")?;
            }
            println!(rt; "")?;
        }
    }
    Ok(())
}

pub fn refused(rt: &HostRuntime, told: &str, refusal: Refusal) -> anyhow::Result<()> {
    println!(rt; "{told}: refused by {refusal}")?;
    Ok(())
}
