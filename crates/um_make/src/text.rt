//! Writes the lines that report on a generated session.
ghost use Rattle.std.specs.Prelude.{◌≡◌, ◌+◌, ◌≤◌, ◌<◌, [], ◌++◌, codes, length};
ghost use Rattle.std.specs.Fmt.{decimal};
ghost use Rattle.um_make.specs.Texts.{header_line, steps_line, endpoint_line, summary_text};

use crate::end_summary::EndpointSummary;
use crate::summary::Summary;
use um_script::Text;

/// Writes the four lines that report on a session of `message_count` messages with training sequence code `tsc`.
pub fn write_summary_lines(out: &mut Text, message_count: u32, tsc: u8, summary: &Summary)
    requires { out.old ≡ [] }
    ensures text { out.new ≡ summary_text message_count tsc summary.now }
    ensures size { length out.new < 2000 }
{
    push_header_line(out, message_count, tsc);
    push_steps_line(out, summary);
    push_endpoint_line(out, b"mob", &summary.mobile);
    push_endpoint_line(out, b"net", &summary.network);
}

fn push_header_line(out: &mut Text, n: u32, tsc: u8)
    requires { out.old ≡ [] }
    ensures text { out.new ≡ header_line n tsc }
    ensures length { length out.new ≤ 100 }
{
    out.push(b"make ");
    out.push_decimal(u64::from(n));
    out.push(b" ");
    out.push_decimal(u64::from(tsc));
    out.push(b"\n");
}

fn push_steps_line(out: &mut Text, summary: &Summary)
    requires { length out.old ≤ 100 }
    ensures text { out.new ≡ out.old ++ steps_line summary.now }
    ensures length { length out.new ≤ length out.old + 250 }
{
    push_number(out, b"steps ", summary.steps);
    push_number(out, b" sends ", summary.sent_blocks);
    push_number(out, b" takes ", summary.good_blocks);
    push_number(out, b" drops ", summary.bad_blocks);
    push_number(out, b" lost ", summary.lost_blocks);
    out.push(b"\n");
}

fn push_endpoint_line(out: &mut Text, name: &[u8], summary: &EndpointSummary)
    requires space { length out.old ≤ 1000 }
    requires name { length name.now ≤ 3 }
    ensures text { out.new ≡ out.old ++ endpoint_line name.now summary.now }
    ensures length { length out.new ≤ length out.old + 200 }
{
    out.push(name);
    push_number(out, b" got ", summary.messages_got);
    push_number(out, b" octets ", summary.octets);
    push_number(out, b" sum ", summary.octet_sum);
    push_number(out, b" acked ", summary.acked_messages);
    out.push(b"\n");
}

fn push_number(out: &mut Text, name: &[u8], number: u64)
    requires space { length out.old ≤ 2000 }
    requires name { length name.now ≤ 8 }
    ensures text { out.new ≡ out.old ++ name.now ++ decimal number }
    ensures length { length out.new ≤ length out.old + 48 }
{
    out.push(name);
    out.push_decimal(number);
}
