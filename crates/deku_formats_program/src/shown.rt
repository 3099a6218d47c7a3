//! Records field by field.

use crate::lines::show_numbers;
use crate::operands::{kind_of, show_operands};
use crate::places::{CAN, CCSDS, DNS, ELF, IPV4, PNG, QUESTION, RISCV, SAMPLE, UDP, name_at};
use deku::ctx::Endian;
use deku_dns::header::Header;
use deku_dns::label::Label;
use deku_dns::query::Query;
use deku_elf::Elf;
use deku_elf::fields::Fields;
use deku_formats::can::Chassis;
use deku_formats::ccsds::Telemetry;
use deku_formats::png::Png;
use deku_instructions::riscv::instruction::Instruction;
use deku_network::ipv4::Ipv4;
use deku_transport::udp::Udp;
use std::alloc::AllocError;
use std::fmt::Write;

/// A record that is shown field by field.
pub trait Shown {
    /// Adds a line for each field: its name, and its value.
    fn show(&self, text: &mut String) -> Result<(), AllocError>;

    /// The name of the field that has this bit of the record. After the fields of fixed places, the
    /// name of what follows them.
    fn field_at(bit: usize) -> &'static str;

    /// The name of the field that says how many items follow it, if there is one.
    fn counting() -> Option<&'static str> {
        None
    }
}

impl Shown for Chassis {
    fn show(&self, text: &mut String) -> Result<(), AllocError> {
        show_numbers(
            &CAN,
            &[
                self.wheel as i128,
                self.gear as i128,
                self.torque as i128,
                self.flags as i128,
                self.padding as i128,
                self.yaw as i128,
            ],
            text,
        )
    }

    fn field_at(bit: usize) -> &'static str {
        name_at(&CAN, bit, "yaw")
    }
}

impl Shown for Telemetry {
    fn show(&self, text: &mut String) -> Result<(), AllocError> {
        let header = &self.header;
        show_numbers(
            &CCSDS,
            &[
                header.version as i128,
                header.kind as i128,
                header.secondary as i128,
                header.application as i128,
                header.grouping as i128,
                header.count as i128,
                header.length as i128,
            ],
            text,
        )?;
        for sample in &self.samples {
            show_numbers(
                &SAMPLE,
                &[sample.voltage as i128, sample.current as i128],
                text,
            )?;
        }
        Ok(())
    }

    fn field_at(bit: usize) -> &'static str {
        name_at(&CCSDS, bit, "samples")
    }

    fn counting() -> Option<&'static str> {
        Some("length")
    }
}

impl Shown for Query {
    fn show(&self, text: &mut String) -> Result<(), AllocError> {
        show_header(&self.header, text)?;
        show_name(self.question.name.items.as_slice(), text)?;
        show_numbers(
            &QUESTION,
            &[self.question.kind as i128, self.question.class as i128],
            text,
        )
    }

    fn field_at(bit: usize) -> &'static str {
        name_at(&DNS, bit, "question")
    }
}

// The lines of a message's header.
fn show_header(header: &Header, text: &mut String) -> Result<(), AllocError> {
    show_numbers(
        &DNS,
        &[
            header.identification as i128,
            header.response as i128,
            header.opcode as i128,
            header.authoritative as i128,
            header.truncated as i128,
            header.recursion_desired as i128,
            header.recursion_available as i128,
            header.reserved as i128,
            header.response_code as i128,
            header.questions as i128,
            header.answers as i128,
            header.authorities as i128,
            header.additionals as i128,
        ],
        text,
    )
}

// The line of a name: a point after each label except the empty one, or only a point if there is no
// other.
fn show_name(labels: &[Label], text: &mut String) -> Result<(), AllocError> {
    write!(text, "name ")?;
    if labels.len() < 2 {
        write!(text, ".")?;
    }
    for label in labels {
        show_label(label.bytes.as_slice(), text)?;
    }
    writeln!(text)
}

// A label and its point. Letters, digits and hyphens are printed as they are, and any other byte as
// three digits after a backslash.
fn show_label(bytes: &[u8], text: &mut String) -> Result<(), AllocError> {
    for byte in bytes {
        if byte.is_ascii_alphanumeric() || *byte == b'-' {
            write!(text, "{}", *byte as char)?;
        } else {
            write!(text, "\\{byte:03}")?;
        }
    }
    if bytes.is_empty() {
        Ok(())
    } else {
        write!(text, ".")
    }
}

impl Shown for Elf {
    fn show(&self, text: &mut String) -> Result<(), AllocError> {
        match self.endian() {
            Endian::Little => writeln!(text, "endian little")?,
            Endian::Big => writeln!(text, "endian big")?,
        }
        show_fields(self.fields(), text)
    }

    fn field_at(bit: usize) -> &'static str {
        name_at(&ELF, bit, "section_names")
    }
}

// The lines of the fields after the endian.
fn show_fields(fields: &Fields, text: &mut String) -> Result<(), AllocError> {
    show_numbers(
        &ELF[3..6],
        &[
            fields.identification[0] as i128,
            fields.identification[1] as i128,
            fields.identification[2] as i128,
        ],
        text,
    )?;
    for byte in &fields.identification[3..] {
        writeln!(text, "padding {byte}")?;
    }
    show_numbers(
        &ELF[7..],
        &[
            fields.kind as i128,
            fields.machine as i128,
            fields.version as i128,
            fields.entry as i128,
            fields.segments_at as i128,
            fields.sections_at as i128,
            fields.flags as i128,
            fields.sizes[0] as i128,
            fields.sizes[1] as i128,
            fields.segment_count as i128,
            fields.sections[0] as i128,
            fields.sections[1] as i128,
            fields.sections[2] as i128,
        ],
        text,
    )
}

impl Shown for Ipv4 {
    fn show(&self, text: &mut String) -> Result<(), AllocError> {
        show_numbers(
            &IPV4[..13],
            &[
                self.version as i128,
                self.words as i128,
                self.service as i128,
                self.congestion as i128,
                self.total as i128,
                self.identification as i128,
                self.reserved as i128,
                self.keep_whole as i128,
                self.more as i128,
                self.offset as i128,
                self.hops as i128,
                self.protocol as i128,
                self.checksum as i128,
            ],
            text,
        )?;
        writeln!(text, "source {}", self.source)?;
        writeln!(text, "destination {}", self.destination)?;
        for byte in &self.options {
            writeln!(text, "option {byte}")?;
        }
        Ok(())
    }

    fn field_at(bit: usize) -> &'static str {
        name_at(&IPV4, bit, "options")
    }

    fn counting() -> Option<&'static str> {
        Some("words")
    }
}

impl Shown for Png {
    fn show(&self, text: &mut String) -> Result<(), AllocError> {
        show_numbers(
            &PNG[3..],
            &[
                self.width as i128,
                self.height as i128,
                self.depth as i128,
                self.colour as i128,
                self.compression as i128,
                self.filter as i128,
                self.interlace as i128,
                self.crc as i128,
            ],
            text,
        )
    }

    fn field_at(bit: usize) -> &'static str {
        name_at(&PNG, bit, "crc")
    }
}

impl Shown for Instruction {
    fn show(&self, text: &mut String) -> Result<(), AllocError> {
        writeln!(text, "kind {}", kind_of(self))?;
        show_operands(self, text)
    }

    fn field_at(bit: usize) -> &'static str {
        name_at(&RISCV, bit, "operands")
    }
}

impl Shown for Udp {
    fn show(&self, text: &mut String) -> Result<(), AllocError> {
        show_numbers(
            &UDP,
            &[
                self.source as i128,
                self.destination as i128,
                self.length as i128,
                self.checksum as i128,
            ],
            text,
        )
    }

    fn field_at(bit: usize) -> &'static str {
        name_at(&UDP, bit, "checksum")
    }
}
