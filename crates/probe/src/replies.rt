// The answer to a reply: ops y, l, S, F and T.
use super::{case, lent, text};
use record::Profile;
use reply::{Answer, KeyExchangeResponse, Port, Server};

fn put_server(out: &mut [u8], at: usize, message: &[u8], server: Server) -> usize {
    match server {
        Server::Sent(name) => text::put_part(out, at, b" server ", message, name),
        Server::NotSent => text::put_text(out, at, b" server -"),
    }
}

fn put_port(out: &mut [u8], at: usize, port: Port) -> usize {
    match port {
        Port::Sent(n) => text::put_number(out, at, b" port ", n as u64),
        Port::NotSent => text::put_text(out, at, b" port -"),
    }
}

fn put_told(
    out: &mut [u8],
    at: usize,
    message: &[u8],
    name: Server,
    number: Port,
    keep_alive: bool,
) -> usize {
    let server = put_server(out, at, message, name);
    let port = put_port(out, server, number);
    text::put_flag(out, port, b" keep-alive ", keep_alive)
}

// The line of an accepted reply.
pub(super) fn put_reply(
    out: &mut [u8],
    at: usize,
    message: &[u8],
    table: &[u16],
    reply: KeyExchangeResponse,
) -> usize {
    let name = reply.server;
    let number = reply.port;
    let chosen = text::put_two(
        out,
        at,
        b"reply protocol ",
        reply.protocol.0,
        b" algorithm ",
        reply.algorithm.0,
    );
    let to = put_told(out, chosen, message, name, number, reply.keep_alive);
    lent::put_entries(out, to, b" cookies ", message, table, reply.cookies)
}

// The two lists that were offered and a message, in a profile under a limit, with a table that was filled for the call.
pub(super) fn put_answer(
    profile: Profile,
    case: &[u8],
    limit: u16,
    table: &mut [u16],
    out: &mut [u8],
    at: usize,
) -> usize {
    let second = case::behind_offered(case, 0);
    let behind = case::behind_offered(case, second);
    if behind <= case.len() {
        let answer = read(profile, case, second, behind, limit, table);
        return put_read(out, at, &case[behind..], table, answer);
    }
    text::bad_case(out, at)
}

// What is read where the second list and the message are at these places of a case.
fn read(
    profile: Profile,
    case: &[u8],
    second: usize,
    behind: usize,
    limit: u16,
    table: &mut [u16],
) -> Answer {
    let mut protocols = [0u16; 255];
    let mut algorithms = [0u16; 255];
    let n = case::put_cells(case::offered(case, 0), &mut protocols);
    let m = case::put_cells(case::offered(case, second), &mut algorithms);
    KeyExchangeResponse::parse(
        profile,
        case::rest(case, behind),
        limit,
        &protocols[0..n],
        &algorithms[0..m],
        table,
    )
}

// What a call answered and left in that table.
fn put_read(out: &mut [u8], at: usize, message: &[u8], table: &[u16], answer: Answer) -> usize {
    match answer {
        Answer::Accepted(reply) => {
            let to = put_reply(out, at, message, table, reply);
            lent::put_changed_behind(out, to, table, reply.cookies)
        }
        Answer::Refused(refusal) => lent::put_refused(out, at, table, refusal),
    }
}
