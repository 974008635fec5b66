// Makes one key-exchange reply by a plan's calls, writes it, reads it back as one who offered what it names, and prints what it read.
#![tactic(auto)]

use nts::{AeadAlgorithm, NextProtocol, NtsError};
use plan::{Appended, Plan};
use record::{ByteCount, Profile};
use reply::{Answer, KeyExchangeResponse, Port, Server};
use std::io;

// The server's name, and the limit under which the reply is read.
const NAME: [u8; 11] = *b"ntp.example";

const LIMIT: u16 = 1024;

fn print(rt: &impl Print, word: &[u8], text: &[u8]) -> io::Result<()> {
    rt.write_all(word)?;
    rt.write_all(text)?;
    rt.write_all(b"\n")
}

fn print_number(rt: &impl Print, word: &[u8], n: u64) -> io::Result<()> {
    rt.write_all(word)?;
    rt.println(n)
}

fn print_refusal(rt: &impl Print, error: NtsError) -> io::Result<()> {
    print_number(rt, b"refused ", error.number() as u64)
}

fn planned() -> Plan {
    let plan = Plan::new(NextProtocol::NTPV4, AeadAlgorithm::AES_SIV_CMAC_256);
    let with_port = plan.set_port(4123);
    let with_name = with_port.set_name_length(11);
    with_name.set_keep_alive()
}

fn with_cookie(rt: &impl Print, plan: Plan, cookie: &[u8], tray: &mut [u8]) -> io::Result<Plan> {
    let answer = plan.append(cookie, tray);
    match answer {
        Appended::Plan(next) => Ok(next),
        Appended::Refused(error) => {
            print_refusal(rt, error)?;
            Ok(plan)
        }
    }
}

fn print_server(rt: &impl Print, message: &[u8], server: Server) -> io::Result<()> {
    match server {
        Server::Sent(name) => print(rt, b"server ", name.of(message)),
        Server::NotSent => print(rt, b"no server", b""),
    }
}

fn print_port(rt: &impl Print, port: Port) -> io::Result<()> {
    match port {
        Port::Sent(n) => print_number(rt, b"port ", n as u64),
        Port::NotSent => print(rt, b"no port", b""),
    }
}

fn print_cookies(rt: &impl Print, message: &[u8], table: &[u16], count: usize) -> io::Result<()> {
    for i in 0..count {
        print(rt, b"cookie ", places::entry(message, table, i))?;
    }
    Ok(())
}

fn print_reply(
    rt: &impl Print,
    message: &[u8],
    table: &[u16],
    reply: KeyExchangeResponse,
) -> io::Result<()> {
    let server = reply.server;
    let port = reply.port;
    print_number(rt, b"protocol ", reply.protocol.0 as u64)?;
    print_number(rt, b"algorithm ", reply.algorithm.0 as u64)?;
    print_server(rt, message, server)?;
    print_port(rt, port)?;
    print_number(rt, b"keep-alive ", reply.keep_alive as u64)?;
    print_number(rt, b"cookies ", reply.cookies as u64)?;
    print_cookies(rt, message, table, reply.cookies)
}

fn read(rt: &impl Print, message: &[u8], table: &mut [u16]) -> io::Result<()> {
    let protocols = [NextProtocol::NTPV4.0];
    let algorithms = [AeadAlgorithm::AES_SIV_CMAC_256.0];
    let answer = KeyExchangeResponse::parse(
        Profile::Usual,
        message,
        LIMIT,
        &protocols[0..1],
        &algorithms[0..1],
        table,
    );
    match answer {
        Answer::Accepted(reply) => print_reply(rt, message, table, reply),
        Answer::Refused(refusal) => {
            let error = refusal.error;
            print_refusal(rt, error)
        }
    }
}

fn with_cookies(rt: &impl Print, tray: &mut [u8]) -> io::Result<Plan> {
    let first = with_cookie(rt, planned(), b"first", tray)?;
    let second = with_cookie(rt, first, b"second", tray)?;
    with_cookie(rt, second, b"third", tray)
}

// What a writer wrote, read.
fn read_written(
    rt: &impl Print,
    answer: ByteCount,
    out: &[u8],
    table: &mut [u16],
) -> io::Result<()> {
    match answer {
        ByteCount::Bytes(n) => {
            print_number(rt, b"wrote ", n as u64)?;
            read(rt, wire::part(out, 0, n), table)
        }
        ByteCount::Refused(error) => print_refusal(rt, error),
    }
}

fn run(rt: &impl Print, tray: &mut [u8], out: &mut [u8], table: &mut [u16]) -> io::Result<()> {
    let plan = with_cookies(rt, tray)?;
    let answer = outgoing::write_reply(plan, tray, &NAME, out);
    read_written(rt, answer, out, table)
}

fn main(rt: HostRuntime) -> io::Result<()> {
    let mut tray = [0u8; 64];
    let mut out = [0u8; 128];
    let mut table = [0u16; 8];
    run(&rt, &mut tray, &mut out, &mut table)
}
