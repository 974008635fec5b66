// The ops of plans: a for one cookie appended, p for a plan made by its calls, P for one made by hand.
use super::{case, lent, text};
use nts::{AeadAlgorithm, NextProtocol};
use plan::{Appended, NameLength, Plan, Port};

// What appending one cookie gave: the plan afterwards, the refusal's number or 0, and whether no byte changed that must not.
#[derive(Clone, Copy)]
pub struct Step {
    pub plan: Plan,
    pub refused: u8,
    pub intact: bool,
}

// The plan that steps have made so far, how many cookies were appended, and where the next one is.
#[derive(Clone, Copy)]
pub struct Made {
    pub plan: Plan,
    pub refused: u8,
    pub intact: bool,
    pub cookies: u8,
    pub next: usize,
}

// Op a: the tray's used length, a cookie behind its four-byte length, and the tray.
pub(super) fn appended(case: &[u8], dst: &mut [u8], out: &mut [u8], at: usize) -> usize {
    let size = case::number32(case, 4);
    let end = case::behind(case, case::behind(case, 0, 8), size);
    let lent = case::rest(case, end);
    if end <= case.len() {
        if lent.len() <= dst.len() {
            return put_appended(
                case::number32(case, 0),
                wire::part(case, 8, size),
                lent,
                &mut dst[0..lent.len()],
                out,
                at,
            );
        }
    }
    text::bad_case(out, at)
}

fn put_appended(
    used: usize,
    cookie: &[u8],
    lent: &[u8],
    tray: &mut [u8],
    out: &mut [u8],
    at: usize,
) -> usize {
    lent::copy(lent, tray);
    let started = Plan::new(NextProtocol(0), AeadAlgorithm(0));
    let step = append(with_used(started, used), cookie, lent, tray);
    put_step(step, tray, out, at)
}

fn put_step(step: Step, tray: &[u8], out: &mut [u8], at: usize) -> usize {
    if step.refused == 0 {
        let to = put_tray(out, at, step.plan.used, tray);
        return lent::put_changed(out, to, step.intact);
    }
    let to = text::put_number(out, at, b"refused ", step.refused as u64);
    lent::put_changed(out, to, step.intact)
}

fn put_tray(out: &mut [u8], at: usize, used: usize, tray: &[u8]) -> usize {
    let number = text::put_number(out, at, b"used ", used as u64);
    let blank = text::put(out, number, b' ');
    text::put_bytes(out, blank, tray)
}

fn with_used(plan: Plan, used: usize) -> Plan {
    let mut changed = plan;
    changed.used = used;
    changed
}

// A cookie appended to a plan whose tray is as `before`.
fn append(plan: Plan, cookie: &[u8], before: &[u8], tray: &mut [u8]) -> Step {
    let used = plan.used;
    let answer = plan.append(cookie, tray);
    match answer {
        Appended::Plan(next) => Step {
            plan: next,
            refused: 0,
            intact: lent::is_same(before, tray, 0, used)
                & lent::is_same(before, tray, next.used, tray.len()),
        },
        Appended::Refused(error) => Step {
            plan,
            refused: error.number(),
            intact: lent::is_same(before, tray, 0, tray.len()),
        },
    }
}

// A number other than one that is given.
fn other(n: u16) -> u16 {
    if n == 1 {
        return 2;
    }
    1
}

// The plan at the front of a case, made by the calls: each option is set to another value and cleared, then set as the flags say.
fn by_calls(case: &[u8]) -> Plan {
    let port = case::number16(case, 5);
    let name = case::number16(case, 7);
    let started = Plan::new(
        NextProtocol(case::number16(case, 0)),
        AeadAlgorithm(case::number16(case, 2)),
    );
    let with_port = started.set_port(other(port));
    let with_name = with_port.set_name_length(other(name));
    let with_all = with_name.set_keep_alive();
    let no_port = with_all.clear_port();
    let no_name = no_port.clear_name_length();
    set(
        no_name.clear_keep_alive(),
        wire::byte_at(case, 4),
        port,
        name,
    )
}

// Each option set as the flags say.
fn set(plan: Plan, flags: u8, port: u16, name: u16) -> Plan {
    let mut made = plan;
    if case::flag(flags, 1) {
        made = made.set_port(port);
    }
    if case::flag(flags, 2) {
        made = made.set_name_length(name);
    }
    if case::flag(flags, 4) {
        made = made.set_keep_alive();
    }
    made
}

// .. made by hand.
fn by_hand(case: &[u8], used: usize) -> Plan {
    let flags = wire::byte_at(case, 4);
    let port = planned_port(case::flag(flags, 1), case::number16(case, 5));
    let name = planned_name(case::flag(flags, 2), case::number16(case, 7));
    Plan {
        protocol: NextProtocol(case::number16(case, 0)),
        algorithm: AeadAlgorithm(case::number16(case, 2)),
        port,
        name,
        keep_alive: case::flag(flags, 4),
        used,
    }
}

fn planned_port(planned: bool, n: u16) -> Port {
    if planned {
        return Port::Number(n);
    }
    Port::None
}

fn planned_name(planned: bool, n: u16) -> NameLength {
    if planned {
        return NameLength::Bytes(n);
    }
    NameLength::None
}

// A plan's length, and the reply written from it.
fn put_reply(
    plan: Plan,
    tray: &[u8],
    name: &[u8],
    dst: &mut [u8],
    out: &mut [u8],
    at: usize,
) -> usize {
    lent::fill(dst);
    let length = plan.length(tray);
    let to = text::put_length(out, at, length);
    let answer = outgoing::write_reply(plan, tray, name, dst);
    lent::put_written(out, to, dst, answer)
}

// Op P: a plan and a name, the output's room, the tray's used length, and the tray.
pub(super) fn of_hand(case: &[u8], dst: &mut [u8], out: &mut [u8], at: usize) -> usize {
    let sizes = behind_name(case);
    let room = case::number32(sizes, 0);
    if 8 <= sizes.len() {
        if room <= dst.len() {
            return put_reply(
                by_hand(case, case::number32(sizes, 4)),
                case::rest(sizes, 8),
                case::counted(case, 9),
                &mut dst[0..room],
                out,
                at,
            );
        }
    }
    text::bad_case(out, at)
}

// What is behind a plan and a name; nothing where the case has no plan or no name.
fn behind_name(case: &[u8]) -> &[u8] {
    if 7 < wire::byte_at(case, 4) {
        return &case[0..0];
    }
    case::rest(case, case::behind_counted(case, 9))
}

// Op p: a plan and a name, the rooms of tray and output, and the cookies behind their number.
pub(super) fn of_calls(case: &[u8], dst: &mut [u8], out: &mut [u8], at: usize) -> usize {
    let sizes = behind_name(case);
    let room = case::number32(sizes, 4);
    if is_counted(sizes) {
        if room <= dst.len() {
            return in_tray(case, sizes, &mut dst[0..room], out, at);
        }
    }
    text::bad_case(out, at)
}

// Whether two sizes, a number and as many counted bytes are all there is.
fn is_counted(sizes: &[u8]) -> bool {
    if sizes.len() < 9 {
        return false;
    }
    case::are_counted(case::rest(sizes, 9), wire::byte_at(sizes, 8) as u16)
}

fn in_tray(case: &[u8], sizes: &[u8], dst: &mut [u8], out: &mut [u8], at: usize) -> usize {
    let mut tray = [0u8; 66000];
    let size = case::number32(sizes, 0);
    if tray.len() < size {
        return text::bad_case(out, at);
    }
    put_calls(case, sizes, &mut tray[0..size], dst, out, at)
}

fn put_calls(
    case: &[u8],
    sizes: &[u8],
    tray: &mut [u8],
    dst: &mut [u8],
    out: &mut [u8],
    at: usize,
) -> usize {
    let made = append_all(case, sizes, tray);
    put_made(made, case::counted(case, 9), tray, dst, out, at)
}

// The reply of a plan to which the cookies are appended, or the first refusal.
fn put_made(
    made: Made,
    name: &[u8],
    tray: &[u8],
    dst: &mut [u8],
    out: &mut [u8],
    at: usize,
) -> usize {
    if made.refused == 0 {
        let plan = made.plan;
        let to = put_reply(plan, tray, name, dst, out, at);
        return lent::put_changed(out, to, made.intact);
    }
    put_refused(out, at, made)
}

// The cookies behind the sizes, appended to the plan that the calls make with a tray that is filled for it.
fn append_all(case: &[u8], sizes: &[u8], tray: &mut [u8]) -> Made {
    let mut before = [0u8; 66000];
    lent::fill(tray);
    append_each(
        by_calls(case),
        wire::byte_at(sizes, 8),
        case::rest(sizes, 9),
        tray,
        &mut before,
    )
}

// So many counted cookies, one after the other; none after one that is refused.
fn append_each(plan: Plan, count: u8, cookies: &[u8], tray: &mut [u8], before: &mut [u8]) -> Made {
    let mut i: u8 = 0;
    let mut made = Made {
        plan,
        refused: 0,
        intact: true,
        cookies: 0,
        next: 0,
    };
    while i < count {
        made = append_next(cookies, made, tray, before);
        i += 1;
    }
    made
}

fn append_next(cookies: &[u8], made: Made, tray: &mut [u8], before: &mut [u8]) -> Made {
    if made.refused == 0 {
        let plan = made.plan;
        let next = made.next;
        lent::copy(tray, before);
        let step = append(plan, case::counted(cookies, next), before, tray);
        return after(made, step, case::behind_counted(cookies, next));
    }
    made
}

// What has been made after one more step.
fn after(made: Made, step: Step, next: usize) -> Made {
    let plan = step.plan;
    let cookies = if step.refused == 0 {
        one_more(made.cookies)
    } else {
        made.cookies
    };
    Made {
        plan,
        refused: step.refused,
        intact: made.intact & step.intact,
        cookies,
        next,
    }
}

fn one_more(n: u8) -> u8 {
    if n < 255 {
        return n + 1;
    }
    n
}

fn put_refused(out: &mut [u8], at: usize, made: Made) -> usize {
    let to = text::put_two(
        out,
        at,
        b"append ",
        made.cookies as u16,
        b" refused ",
        made.refused as u16,
    );
    lent::put_changed(out, to, made.intact)
}
