ghost use Rattle.std.specs.Prelude.{◌≡◌, ◌≤◌, [], length, if◌then◌else◌, is_ok, Ok};
ghost use Rattle.queue.specs.Queues.{items};
ghost use Rattle.layers.specs.Routers.{side_of, router_view, router_check, owing, order_after, order_taken, Tied, OneSide};
ghost use Rattle.memory.specs.Views.{room};
ghost use Rattle.std.proofs.Common.{arith};
ghost use Rattle.std.proofs.lemmas.Bool.Decides.{nat_tests};
ghost use Rattle.layers.specs.Merging.{length_merge};

use memory::fault::MemoryFault;
use memory::interface::HallMemory;
use memory::request::{Request, Taken};
use numbers::cell::Cell;
use queue::full::Full;
use queue::line::Queue;

// One of the two memories of a router.
#[derive(Clone, Copy)]
enum Side {
    Left,
    Right,
}

// A layer over two memories: a cell lies, under the same number, in the right one when its number has this bit set, else in the left one.
#[derive(Drop)]
pub struct Router<L: HallMemory, R: HallMemory> {
    left: L,
    right: R,
    bit: u32,
    // the side that owes each reply in transit, the first one first
    order: Queue<Side, 32>,
    ghost within: { bit ≤ 31 },
    ghost few: { length (items order) ≤ room },
    ghost tied: { Tied (items order) (L.HallMemory.view left) (R.HallMemory.view right) },
}

impl<L: HallMemory, R: HallMemory> Router<L, R> {
    // Refuses a bit that no cell number has, and a side with replies in transit, whose place among the requests nothing tells.
    pub fn check(left: &L, right: &R, bit: u32) -> Result<(), MemoryFault>
        ensures { result ≡ router_check (L.HallMemory.view left.now) (R.HallMemory.view right.now) bit }
    {
        if bit > 31 {
            return Err(MemoryFault::BitNumber);
        }
        if left.waiting() > 0 || right.waiting() > 0 {
            return Err(MemoryFault::InTransit);
        }
        Ok(())
    }

    // The router over these two memories. The check was passed before.
    pub fn new(left: L, right: R, bit: u32) -> Router<L, R>
        requires { router_check (L.HallMemory.view left) (R.HallMemory.view right) bit ≡ Ok tt }
        ensures view { router_view result.bit (items result.order) (L.HallMemory.view result.left) (R.HallMemory.view result.right) ≡ router_view bit [] (L.HallMemory.view left) (R.HallMemory.view right) }
        ensures lies { OneSide bit (router_view result.bit (items result.order)) }
    {
        Router {
            left,
            right,
            bit,
            order: Queue::new(Side::Left),
        }
    }

    fn side(&self, cell: Cell) -> Side
        ensures { result ≡ side_of self.now.bit cell.0 }
    {
        if (cell.0 >> self.bit) % 2 == 1 {
            Side::Right
        } else {
            Side::Left
        }
    }
}

// Notes that this side owes the reply of a request, if it wants one, unless no more replies may be in transit.
fn owe(order: &mut Queue<Side, 32>, side: Side, request: Request) -> Result<(), Full>
    ensures answer { result ≡ owing request (items order.old) }
    ensures holds { items order.new ≡ (if is_ok result then order_after request side (items order.old) else items order.old) }
{
    if request.action.wants_reply() {
        order.push(side)?;
    }
    Ok(())
}

// Notes what was taken from the side that owes the first reply.
fn settle(order: &mut Queue<Side, 32>, taken: Taken)
    ensures { items order.new ≡ order_taken taken (items order.old) }
{
    if let Taken::Reply(_) = taken {
        order.pop();
    }
}

impl<L: HallMemory, R: HallMemory> HallMemory for Router<L, R> {
    ghost view = { λ m. router_view m.bit (items m.order) (L.HallMemory.view m.left) (R.HallMemory.view m.right) };

    ghost bounded = { λ m.
        let left = L.HallMemory.bounded m.left in
        let right = R.HallMemory.bounded m.right in
        let few = m.few in
        Prim.grind (arith, nat_tests, length_merge) };

    fn send(&mut self, request: Request) -> Result<(), MemoryFault> {
        let side = self.side(request.cell);
        owe(&mut self.order, side, request)?;
        match side {
            Side::Left => self.left.send(request),
            Side::Right => self.right.send(request),
        }
    }

    fn take(&mut self) -> Taken {
        let taken = match self.order.first() {
            None => Taken::Nothing,
            Some(Side::Left) => self.left.take(),
            Some(Side::Right) => self.right.take(),
        };
        settle(&mut self.order, taken);
        taken
    }

    fn waiting(&self) -> usize {
        self.order.len()
    }
}
