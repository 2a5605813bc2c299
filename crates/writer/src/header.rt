// Writing bytes 0 to 19, which both PDUs share.
ghost use Rattle.std.specs.Prelude.{◌≡◌, ◌≤◌, length, true};
ghost use Rattle.wire.specs.Bytes.{splice};
ghost use Rattle.wire.specs.Table.{width, fill};
ghost use Rattle.pdu.specs.Tables.{is_seven, header_table};
ghost use Rattle.pdu.specs.Records.{header_values};

use pdu::Header;

// Writes the shared fields, with the PDU type and the size given. The rules keep the status 0 where byte 10 is padding.
pub(crate) fn put(out: &mut [u8], h: Header, pdu_type: u8, size: u16)
    requires { width (header_table true 0 0) ≤ length out.old }
    ensures { out.new ≡ splice 0 (fill (header_table (is_seven h.version) pdu_type size) (header_values h)) out.old }
{
    wire::put_four(out, 0, h.version, h.exercise, pdu_type, pdu::RADIO_FAMILY);
    wire::put(out, 4, h.timestamp);
    wire::put(out, 8, size);
    wire::put_two(out, 10, h.status, 0);
    wire::put(out, 12, h.site);
    wire::put_two(out, 14, h.application, h.entity);
    wire::put(out, 18, h.radio);
}
