//! The hubs and the clients that ran a script.

ghost use Rattle.std.specs.Prelude.{◌≡◌, Some, None, cond, is_some, map, IfOk};
ghost use Rattle.replay.specs.TwoWorlds.{woven};
ghost use Rattle.replay.specs.KeptWorlds.{seated};

use crate::seats::Seat;
use crate::two_worlds::{Worlds, woven};
use crate::world::World;
use hubasking::Hub;
use push_base::NoMemory;
use pushclient::Client;
use std::alloc::Global;

/// The hubs and the clients that ran a script, as they stand behind its last line.
#[derive(Drop)]
pub struct Ends {
    /// The history and the sessions.
    pub hub: Hub,
    /// Those of the second hub, where the script has one.
    pub far: Option<Hub>,
    /// The clients, of both hubs and lone ones, in the order of their lines.
    pub clients: Vec<Client>,
}

/// What the worlds leave.
pub(crate) fn ends_of(alloc: Global, worlds: Worlds) -> Result<Ends, NoMemory>
    ensures hub { IfOk result (λ ends. ends.hub ≡ worlds.near.hub) }
    ensures far { IfOk result (λ ends. ends.far ≡ cond (is_some worlds.apex) (Some worlds.far.hub) None) }
    ensures clients { IfOk result (λ ends. ends.clients.items ≡ woven worlds.order.items (map (λ k. k.client) (seated worlds.near.seats.items)) (map (λ k. k.client) (seated worlds.far.seats.items))) }
{
    let Worlds {
        near,
        far,
        apex,
        order,
    } = worlds;
    let (hub, seats) = parts_of(near);
    let (far_hub, far_seats) = parts_of(far);
    let clients = all_clients(alloc, &order, seats, far_seats)?;
    Ok(Ends {
        hub,
        far: hub_where(apex.is_some(), far_hub),
        clients,
    })
}

// A hub, where a test holds.
fn hub_where(test: bool, hub: Hub) -> Option<Hub>
    ensures { result ≡ cond test (Some hub) None }
{
    if test { Some(hub) } else { None }
}

// The hub and the seats of a world.
fn parts_of(world: World) -> (Hub, Vec<Seat>)
    ensures hub { result.0 ≡ world.hub }
    ensures seats { result.1.items ≡ world.seats.items }
{
    let World { hub, seats, .. } = world;
    (hub, seats)
}

// The clients of the seats of both worlds, in the order of all.
fn all_clients(
    alloc: Global,
    order: &[bool],
    near: Vec<Seat>,
    far: Vec<Seat>,
) -> Result<Vec<Client>, NoMemory>
    ensures { IfOk result (λ clients. clients.items ≡ woven order.now (map (λ k. k.client) (seated near.items)) (map (λ k. k.client) (seated far.items))) }
{
    let near = clients_of(alloc, near)?;
    let far = clients_of(alloc, far)?;
    let clients = woven(alloc, order, near, far)?;
    Ok(clients)
}

// The clients of seats.
fn clients_of(alloc: Global, seats: Vec<Seat>) -> Result<Vec<Client>, NoMemory>
    ensures { IfOk result (λ clients. clients.items ≡ map (λ k. k.client) (seated seats.items)) }
{
    let mut clients = Vec::new(alloc);
    'seats: for seat in seats {
        clients.push(client_of(seat))?;
    }
    Ok(clients)
}

// The client of a seat.
fn client_of(seat: Seat) -> Client
    ensures { result ≡ seat.client }
{
    let Seat { client, .. } = seat;
    client
}
