use std::test::Fail;
use wait_queue::{Ticket, Tickets};

fn ticket(number: u64) -> Ticket {
    Ticket {
        number,
        body: 1,
        value: -1,
        env: [0; 32],
        waits: [None; 8],
    }
}

#[derive(Clone, Copy)]
enum Call {
    Put(u64),
    Front,
    Take,
}

// The number of the ticket that is shown, taken or given back.
fn number_told(tickets: &mut Tickets, call: Call) -> Option<u64> {
    let ticket = match call {
        Call::Put(number) => tickets.put(ticket(number)).err(),
        Call::Front => return tickets.front().map(|ticket| ticket.number),
        Call::Take => tickets.take(),
    };
    ticket.map(|ticket| ticket.number)
}

#[test]
fn tickets_come_in_their_order(rt: HostRuntime) -> Result<(), Fail> {
    for (capacity, calls) in [
        (
            2,
            [
                (Call::Front, None),
                (Call::Put(7), None),
                (Call::Put(9), None),
                (Call::Put(4), Some(4)),
                (Call::Front, Some(7)),
                (Call::Take, Some(7)),
                (Call::Put(5), None),
                (Call::Put(6), Some(6)),
                (Call::Take, Some(9)),
                (Call::Take, Some(5)),
                (Call::Take, None),
            ]
            .as_slice(),
        ),
        (0, [(Call::Put(3), Some(3)), (Call::Take, None)].as_slice()),
    ] {
        let mut tickets = Tickets::with_capacity(rt.alloc(), capacity)?;
        for (at, (next, wanted)) in calls.iter().enumerate() {
            assert_eq!(rt;
                number_told(&mut tickets, *next),
                *wanted,
                "room for {capacity}, call {at}"
            );
        }
    }
    Ok(())
}
