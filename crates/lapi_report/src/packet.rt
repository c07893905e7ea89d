ghost use Rattle.std.specs.Prelude.{◌≡◌, ◌≤◌, ◌+◌, ◌++◌, length, IfErr};
ghost use Rattle.lapi_base.specs.Output.PacketText.{data_word, ack_word, bits_word, data_front, packet_line, bad_line, packet_text};
ghost use Rattle.lapi_base.specs.Packet.Layout.{layout_of};
ghost use Rattle.lapi_io.specs.Writes.{Writes};

use crate::head::{add_head, head_name};
use crate::parts::{add_message, reason_name, reason_number};
use crate::text_line::TextLine;
use lapi_base::{Bad, DataPacket, Packet, WriteFault};
use lapi_io::Sink;
use lapi_packet::decode;

/// Writes the fields of the packet that the bytes spell, or why they spell none. It takes no memory.
#[tactic(auto, unfolding(lapi_base::specs::Output::PacketText::packet_text))]
pub fn write_packet<K: Sink>(bytes: &[u8], sink: &mut K) -> Result<(), WriteFault>
    ensures written { Writes K.held K.faults K.room sink.old sink.new (packet_text bytes.now) result }
    ensures only_failed { IfErr result (λ fault. fault ≡ WriteFault.Failed) }
{
    let mut line = TextLine::new();
    fill(bytes, &mut line);
    line.write(sink)?;
    Ok(())
}

#[tactic(auto, unfolding(lapi_base::specs::Output::PacketText::packet_text))]
fn fill(bytes: &[u8], line: &mut TextLine)
    ensures { line.new ≡ packet_text bytes.now }
{
    match decode(bytes) {
        Ok(packet) => fill_packet(&packet, line),
        Err(bad) => fill_bad(bad, line),
    }
}

fn fill_packet(packet: &Packet, line: &mut TextLine)
    ensures { line.new ≡ packet_line packet.now }
{
    match packet {
        Packet::Data(packet) => fill_data(packet, line),
        Packet::Ack {
            layout,
            from,
            to,
            base,
            bits,
        } => fill_acknowledgement(*layout, *from, *to, *base, *bits, line),
    }
}

fn fill_acknowledgement(layout: u32, from: u32, to: u32, base: u32, bits: u64, line: &mut TextLine)
    ensures { line.new ≡ packet_line (Packet.Ack layout from to base bits) }
{
    line.begin(ack_word(layout));
    line.text(" from ");
    line.number(u64::from(from));
    line.text(" to ");
    line.number(u64::from(to));
    line.text(" base ");
    line.number(u64::from(base));
    line.text(" bits ");
    add_bits(layout, bits, line);
    line.text("\n");
}

/// The first word of an acknowledgement's text.
#[tactic(auto, using(crate::proofs::LayoutWords::ack_word_by))]
fn ack_word(layout: u32) -> &'static str
    ensures word { result.now ≡ ack_word (layout_of layout) }
    ensures short { length result.now ≤ 5 }
{
    if layout == 2 { "ack2" } else { "ack" }
}

/// 8 digits, in the second layout 16.
#[tactic(auto, using(crate::proofs::LayoutWords::bits_word_by))]
fn add_bits(layout: u32, bits: u64, line: &mut TextLine)
    requires { length line.old + 16 ≤ 4096 }
    ensures text { line.new ≡ line.old ++ bits_word (layout_of layout) bits }
    ensures room { length line.new ≤ length line.old + 16 }
{
    if layout == 2 {
        line.hex(&bits.to_be_bytes());
    } else {
        line.hex(&((bits % 4_294_967_296) as u32).to_be_bytes());
    }
}

fn fill_data(packet: &DataPacket, line: &mut TextLine)
    ensures { line.new ≡ packet_line (Packet.Data packet.now) }
{
    begin_data(packet, line);
    add_head(&packet.head, line);
    line.text(" payload ");
    line.optional_hex(packet.payload.as_slice());
    line.text("\n");
}

/// The first word of a data packet's text.
#[tactic(auto, using(crate::proofs::LayoutWords::data_word_by))]
fn data_word(layout: u32) -> &'static str
    ensures word { result.now ≡ data_word (layout_of layout) }
    ensures short { length result.now ≤ 5 }
{
    if layout == 2 { "data2" } else { "data" }
}

/// Leaves in `line` what stands before the fields of the head.
fn begin_data(packet: &DataPacket, line: &mut TextLine)
    ensures text { line.new ≡ data_front packet.now }
    ensures short { length line.new ≤ 300 }
{
    line.begin(data_word(packet.layout));
    line.text(" from ");
    line.number(u64::from(packet.from));
    line.text(" to ");
    line.number(u64::from(packet.to));
    line.text(" seq ");
    line.number(u64::from(packet.seq));
    line.text(" message ");
    add_message(packet.name, line);
    line.text(" op ");
    line.text(head_name(&packet.head));
    line.text(" length ");
    line.number(u64::from(packet.length));
    line.text(" fragment ");
    line.number(u64::from(packet.fragment));
}

fn fill_bad(bad: Bad, line: &mut TextLine)
    ensures { line.new ≡ bad_line bad }
{
    line.begin("bad ");
    line.number(u64::from(bad.place));
    line.text(" ");
    line.number(reason_number(bad.reason));
    line.text(" ");
    line.text(reason_name(bad.reason));
    line.text("\n");
}
