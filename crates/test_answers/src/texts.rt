//! Types of questions, and answers, as text.

use dns_data::{Data, Record, RecordType};
use std::io;
use zone_answers::{Answer, QueryType};

/// The word of a type: `ANY`, and `OTHER` for one that no zone has.
pub fn query_type_text(asked: QueryType) -> &'static str {
    match asked {
        QueryType::Kept(kept) => kept.text(),
        QueryType::Any => "ANY",
        QueryType::Other => "OTHER",
    }
}

/// A record, of an SOA without its serial.
fn but_serial(rt: &HostRuntime, record: &Record) -> io::Result<String> {
    let text = match &record.rdata {
        Data::Soa(soa) => {
            let fields = soa.fields();
            let ttl = record.ttl.seconds();
            format!(in rt.alloc();
                "{} {ttl} SOA {} {} {} {} {} {}",
                record.owner,
                fields.mname,
                fields.rname,
                fields.refresh.0,
                fields.retry.0,
                fields.expire.0,
                fields.minimum.0
            )?
        }
        _ => format!(in rt.alloc(); "{record}")?,
    };
    Ok(text)
}

fn push_section(
    rt: &HostRuntime,
    text: &mut String,
    section: &str,
    records: &[Record],
) -> io::Result<()> {
    for record in records {
        text.push_str(&format!(in rt.alloc(); "{section} {record}\n")?)?;
    }
    Ok(())
}

/// An answer, without the serial of an SOA in its authority section.
pub fn answer_text(rt: &HostRuntime, answer: &Answer) -> io::Result<String> {
    let authority = if answer.authoritative { " aa" } else { "" };
    let mut text = format!(in rt.alloc(); "{}{authority}\n", answer.code.text())?;
    push_section(rt, &mut text, "answer", &answer.answer)?;
    for record in &answer.authority {
        text.push_str(&but_serial(rt, record)?)?;
        text.push_str("\n")?;
    }
    push_section(rt, &mut text, "additional", &answer.additional)?;
    Ok(text)
}
