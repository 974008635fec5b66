// The calls of a reply plan, its length and its reply, for a host in C or Rust, which keeps the plan as eight cells: protocol, algorithm, whether there is a
// port and its number, whether the server is named and the name's length, keep-alive, and the used length of the tray of cookies. Cells that hold no plan
// are 9.
#![tactic(auto)]

ghost use Rattle.std.specs.Prelude.{◌≡◌, true, false, cond, length, eqb};
ghost use Rattle.plan.specs.Plan as plans;
ghost use Rattle.plan.specs.declared.Port.TheVariants as ports;
ghost use Rattle.plan.specs.declared.NameLength.TheVariants as names;
ghost use Rattle.cells.specs.Cells.{cells, counted, Gives, Writes};
ghost use Rattle.planning.specs.Planned.{port_there, port_number, name_there, name_number, plan_cells, is_plan, plan_in, changed, AppendsTo, planned_length, planned_reply, planned_bytes};
ghost use Rattle.planning.specs.Code.{told_held, changed_by};

use nts::{AeadAlgorithm, NextProtocol, NtsError};
use plan::{Appended, NameLength, Plan, Port};

// The plan that cells hold.
#[derive(Clone, Copy)]
enum Held {
    Plan(Plan),
    None,
}

// What a call may change in a plan.
#[derive(Clone, Copy)]
enum Change {
    SetPort(u16),
    ClearPort,
    SetNameLength(u16),
    ClearNameLength,
    SetKeepAlive,
    ClearKeepAlive,
}

// Starts a plan.
pub fn ntske_plan_new(protocol: u16, algorithm: u16, plan: &mut [usize; 8]) -> u64
    ensures { Gives (cells (plan_cells (plans.started (record { 0 = protocol }) (record { 0 = algorithm })))) plan.old result plan.new }
{
    *plan = plan_cells(Plan::new(NextProtocol(protocol), AeadAlgorithm(algorithm)));
    0
}

// Set and clear: 9 for cells that hold no plan.
pub fn ntske_plan_set_port(plan: &mut [usize; 8], port: u16) -> u64
    ensures { Gives (changed (λ x. plans.with_port x (ports.Number port)) (plan_in plan.old)) plan.old result plan.new }
{
    alter(plan, Change::SetPort(port))
}

pub fn ntske_plan_clear_port(plan: &mut [usize; 8]) -> u64
    ensures { Gives (changed (λ x. plans.with_port x ports.None) (plan_in plan.old)) plan.old result plan.new }
{
    alter(plan, Change::ClearPort)
}

pub fn ntske_plan_set_name_length(plan: &mut [usize; 8], length: u16) -> u64
    ensures { Gives (changed (λ x. plans.with_name x (names.Bytes length)) (plan_in plan.old)) plan.old result plan.new }
{
    alter(plan, Change::SetNameLength(length))
}

pub fn ntske_plan_clear_name_length(plan: &mut [usize; 8]) -> u64
    ensures { Gives (changed (λ x. plans.with_name x names.None) (plan_in plan.old)) plan.old result plan.new }
{
    alter(plan, Change::ClearNameLength)
}

pub fn ntske_plan_set_keep_alive(plan: &mut [usize; 8]) -> u64
    ensures { Gives (changed (λ x. plans.with_keep_alive x true) (plan_in plan.old)) plan.old result plan.new }
{
    alter(plan, Change::SetKeepAlive)
}

pub fn ntske_plan_clear_keep_alive(plan: &mut [usize; 8]) -> u64
    ensures { Gives (changed (λ x. plans.with_keep_alive x false) (plan_in plan.old)) plan.old result plan.new }
{
    alter(plan, Change::ClearKeepAlive)
}

// Appends a cookie to the tray: 9 for cells that hold no plan or a broken tray, then 8, 7 for the ninth, 10 for no room. Only the bytes of the field that
// is added change.
pub fn ntske_plan_append(plan: &mut [usize; 8], cookie: &[u8], tray: &mut [u8]) -> u64
    ensures { AppendsTo plan.old cookie.now tray.old result plan.new tray.new }
{
    let held = plan_in(plan);
    let Held::Plan(x) = held else {
        return cells::refused(NtsError::InvalidValue);
    };
    let answer = x.append(cookie, tray);
    match answer {
        Appended::Plan(x) => {
            *plan = plan_cells(x);
            0
        }
        Appended::Refused(error) => cells::refused(error),
    }
}

// The length of the reply that a plan is for: 9 for cells that hold no plan and for a broken tray.
pub fn ntske_plan_length(plan: &[usize; 8], tray: &[u8], length: &mut [usize; 1]) -> u64
    ensures { Gives (counted (planned_length (plan_in plan.now) tray.now)) length.old result length.new }
{
    let held = plan_in(plan);
    let Held::Plan(x) = held else {
        return cells::refused(NtsError::InvalidValue);
    };
    let answer = x.length(tray);
    cells::give_count(answer, length)
}

// Writes the reply that a plan is for, with the server's name: 9 for cells that hold no plan, a broken tray, or a name of another length or that is not
// UTF-8, then 15 for no cookie, then 10.
pub fn ntske_write_reply(
    plan: &[usize; 8],
    tray: &[u8],
    server: &[u8],
    out: &mut [u8],
    written: &mut [usize; 1],
) -> u64
    ensures { Writes (planned_reply (plan_in plan.now) tray.now server.now (length out.old))
        (planned_bytes (plan_in plan.now) tray.now server.now) out.old written.old result out.new written.new }
{
    let held = plan_in(plan);
    let Held::Plan(x) = held else {
        return cells::refused(NtsError::InvalidValue);
    };
    let answer = outgoing::write_reply(x, tray, server, out);
    cells::give_count(answer, written)
}

// One call for each change: 9 for cells that hold no plan.
fn alter(plan: &mut [usize; 8], change: Change) -> u64
    ensures { Gives (changed (changed_by change) (plan_in plan.old)) plan.old result plan.new }
{
    let held = plan_in(plan);
    let Held::Plan(x) = held else {
        return cells::refused(NtsError::InvalidValue);
    };
    *plan = plan_cells(changed_by(change, x));
    0
}

fn changed_by(change: Change, x: Plan) -> Plan
    ensures { result ≡ changed_by change x }
{
    match change {
        Change::SetPort(port) => x.set_port(port),
        Change::ClearPort => x.clear_port(),
        Change::SetNameLength(length) => x.set_name_length(length),
        Change::ClearNameLength => x.clear_name_length(),
        Change::SetKeepAlive => x.set_keep_alive(),
        Change::ClearKeepAlive => x.clear_keep_alive(),
    }
}

// The plan that cells hold: numbers of sixteen bits, and flags of 0 or 1.
fn plan_in(c: &[usize; 8]) -> Held
    ensures { told_held result ≡ plan_in c.now }
{
    if is_plan(c) {
        let port = port_in(c[2], c[3] as u16);
        let name = name_in(c[4], c[5] as u16);
        return Held::Plan(Plan {
            protocol: NextProtocol(c[0] as u16),
            algorithm: AeadAlgorithm(c[1] as u16),
            port,
            name,
            keep_alive: c[6] == 1,
            used: c[7],
        });
    }
    Held::None
}

fn is_plan(c: &[usize; 8]) -> bool
    ensures { result ≡ is_plan c.now }
{
    (c[0] <= 65535)
        & (c[1] <= 65535)
        & (c[2] <= 1)
        & (c[3] <= 65535)
        & (c[4] <= 1)
        & (c[5] <= 65535)
        & (c[6] <= 1)
}

fn port_in(there: usize, n: u16) -> Port
    ensures { result ≡ cond (eqb there 1) (ports.Number n) ports.None }
{
    if there == 1 {
        return Port::Number(n);
    }
    Port::None
}

fn name_in(there: usize, n: u16) -> NameLength
    ensures { result ≡ cond (eqb there 1) (names.Bytes n) names.None }
{
    if there == 1 {
        return NameLength::Bytes(n);
    }
    NameLength::None
}

fn plan_cells(x: Plan) -> [usize; 8]
    ensures { result ≡ plan_cells x }
{
    let port = x.port;
    let name = x.name;
    [
        x.protocol.0 as usize,
        x.algorithm.0 as usize,
        port_there(port),
        port_number(port),
        name_there(name),
        name_number(name),
        cells::flag_of(x.keep_alive),
        x.used,
    ]
}

fn port_there(port: Port) -> usize
    ensures { result ≡ port_there port }
{
    match port {
        Port::Number(_) => 1,
        Port::None => 0,
    }
}

fn port_number(port: Port) -> usize
    ensures { result ≡ port_number port }
{
    match port {
        Port::Number(n) => n as usize,
        Port::None => 0,
    }
}

fn name_there(name: NameLength) -> usize
    ensures { result ≡ name_there name }
{
    match name {
        NameLength::Bytes(_) => 1,
        NameLength::None => 0,
    }
}

fn name_number(name: NameLength) -> usize
    ensures { result ≡ name_number name }
{
    match name {
        NameLength::Bytes(n) => n as usize,
        NameLength::None => 0,
    }
}
