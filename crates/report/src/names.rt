ghost use Rattle.std.specs.Prelude.{◌≡◌};
ghost use Rattle.report.specs.Names.{IsOneOf, client_name, user_name};

use mz_base::{Logs, Text};

/// The name of a client, by its number.
pub fn client_name(logs: &Logs, client: u32) -> &Text
    requires { IsOneOf logs.now.clients client }
    ensures { result.now ≡ client_name logs.now client }
{
    &logs.clients.as_slice()[client as usize - 1].name
}

/// The name of a user, by its number.
pub fn user_name(logs: &Logs, user: u32) -> &Text
    requires { IsOneOf logs.now.users user }
    ensures { result.now ≡ user_name logs.now user }
{
    &logs.users.as_slice()[user as usize - 1].name
}
