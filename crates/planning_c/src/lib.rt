// The calls of the crate planning as a host in C or Rust links them: an export calls the function of its name and promises, in the same clauses, what that promises.
#![tactic(auto)]

ghost use Rattle.std.specs.Prelude.{true, false, length};
ghost use Rattle.cells.specs.Cells.{cells, counted, Gives, Writes};
ghost use Rattle.planning.specs.Planned.{plan_cells, plan_in, changed, AppendsTo, planned_length, planned_reply, planned_bytes};
ghost use Rattle.plan.specs.Plan as plans;
ghost use Rattle.plan.specs.declared.Port.TheVariants as ports;
ghost use Rattle.plan.specs.declared.NameLength.TheVariants as names;

// Starts a plan.
#[unsafe(no_mangle)]
pub extern "C" fn ntske_plan_new(protocol: u16, algorithm: u16, plan: &mut [usize; 8]) -> u64
    ensures { Gives (cells (plan_cells (plans.started (record { 0 = protocol }) (record { 0 = algorithm })))) plan.old result plan.new }
{
    planning::ntske_plan_new(protocol, algorithm, plan)
}

// Sets the port.
#[unsafe(no_mangle)]
pub extern "C" fn ntske_plan_set_port(plan: &mut [usize; 8], port: u16) -> u64
    ensures { Gives (changed (λ x. plans.with_port x (ports.Number port)) (plan_in plan.old)) plan.old result plan.new }
{
    planning::ntske_plan_set_port(plan, port)
}

// Clears the port.
#[unsafe(no_mangle)]
pub extern "C" fn ntske_plan_clear_port(plan: &mut [usize; 8]) -> u64
    ensures { Gives (changed (λ x. plans.with_port x ports.None) (plan_in plan.old)) plan.old result plan.new }
{
    planning::ntske_plan_clear_port(plan)
}

// Sets the length of the server's name.
#[unsafe(no_mangle)]
pub extern "C" fn ntske_plan_set_name_length(plan: &mut [usize; 8], length: u16) -> u64
    ensures { Gives (changed (λ x. plans.with_name x (names.Bytes length)) (plan_in plan.old)) plan.old result plan.new }
{
    planning::ntske_plan_set_name_length(plan, length)
}

// Says that no server is named.
#[unsafe(no_mangle)]
pub extern "C" fn ntske_plan_clear_name_length(plan: &mut [usize; 8]) -> u64
    ensures { Gives (changed (λ x. plans.with_name x names.None) (plan_in plan.old)) plan.old result plan.new }
{
    planning::ntske_plan_clear_name_length(plan)
}

// Sets keep-alive.
#[unsafe(no_mangle)]
pub extern "C" fn ntske_plan_set_keep_alive(plan: &mut [usize; 8]) -> u64
    ensures { Gives (changed (λ x. plans.with_keep_alive x true) (plan_in plan.old)) plan.old result plan.new }
{
    planning::ntske_plan_set_keep_alive(plan)
}

// Clears keep-alive.
#[unsafe(no_mangle)]
pub extern "C" fn ntske_plan_clear_keep_alive(plan: &mut [usize; 8]) -> u64
    ensures { Gives (changed (λ x. plans.with_keep_alive x false) (plan_in plan.old)) plan.old result plan.new }
{
    planning::ntske_plan_clear_keep_alive(plan)
}

// Appends a cookie to the tray.
#[unsafe(no_mangle)]
pub extern "C" fn ntske_plan_append(plan: &mut [usize; 8], cookie: &[u8], tray: &mut [u8]) -> u64
    ensures { AppendsTo plan.old cookie.now tray.old result plan.new tray.new }
{
    planning::ntske_plan_append(plan, cookie, tray)
}

// The length of the reply that a plan is for.
#[unsafe(no_mangle)]
pub extern "C" fn ntske_plan_length(plan: &[usize; 8], tray: &[u8], length: &mut [usize; 1]) -> u64
    ensures { Gives (counted (planned_length (plan_in plan.now) tray.now)) length.old result length.new }
{
    planning::ntske_plan_length(plan, tray, length)
}

// Writes the reply that a plan is for.
#[unsafe(no_mangle)]
pub extern "C" fn ntske_write_reply(
    plan: &[usize; 8],
    tray: &[u8],
    server: &[u8],
    out: &mut [u8],
    written: &mut [usize; 1],
) -> u64
    ensures { Writes (planned_reply (plan_in plan.now) tray.now server.now (length out.old))
        (planned_bytes (plan_in plan.now) tray.now server.now) out.old written.old result out.new written.new }
{
    planning::ntske_write_reply(plan, tray, server, out, written)
}
