//! The shop floor of a drill: machines, the packets that they sent, and the replies.
ghost use Rattle.std.specs.Prelude.{◌≡◌, ◌≤◌, ◌<◌, ◌^◌, IfOk, IfSome, OnOk, length, option_map};
ghost use Rattle.std.specs.List.{list_any};
ghost use Rattle.feeder.specs.Table.{asked, started};
ghost use Rattle.drill.specs.Floors.{GoesBack, backed, carded, comes, empty_floor, inserted};
ghost use Rattle.drill.specs.Floors.{is_boot};
ghost use Rattle.drill.specs.Floors.{packet_at, packet_of, place_of, powered, sent, turned};
ghost use Rattle.drill.specs.Floors.{Turns, with_reply};
ghost use Rattle.drill.specs.Turns.{IsTurn};

use crate::sent::{Boot, Packet, Returned};
use crate::texts::{act_line, packet_line, text_line};
use crate::turn::Turn;
use feeder::Feeder;
use job_facts::Reply;
use std::alloc::{AllocError, Global};
use std::marker::Model;
use store_data::{Bytes, Name};
use wire::{parse_reply, request_text};

/// A shop floor: the machines, the boot numbers that they used, and all packets and replies, the
/// oldest first.
#[derive(Drop)]
pub struct Floor {
    machines: Vec<Feeder>,
    boots: Vec<Boot>,
    packets: Vec<Packet>,
    replies: Vec<Returned>,
}

impl Model for Floor {
    ghost use Rattle.drill.specs.Floors.{Floor as FloorState};

    ghost Value = { FloorState };

    ghost view = { λ f. record {
      machines = f.machines.items;
      boots = f.boots.items;
      packets = f.packets.items;
      replies = f.replies.items;
    } };
}

impl Floor {
    /// Creates a shop floor without machines, packets and replies.
    pub fn new(alloc: Global) -> Floor
        ensures { result ≡ empty_floor }
    {
        Floor {
            machines: Vec::new(alloc),
            boots: Vec::new(alloc),
            packets: Vec::new(alloc),
            replies: Vec::new(alloc),
        }
    }

    /// Runs `turn`, and returns the line to print, or `None` if the turn names a machine or a reply
    /// that doesn't exist.
    ///
    /// # Errors
    ///
    /// Fails only if an allocation fails.
    pub fn turn(&mut self, alloc: Global, turn: Turn) -> Result<Option<Vec<u8>>, AllocError>
        requires { IsTurn turn }
        ensures { IfOk result (λ text. Turns self.old turn (turned self.new text)) }
    {
        match turn {
            Turn::Power { machine, boot } => {
                self.power(machine, boot)?;
                Ok(Some(text_line(alloc, b"ok")?))
            }
            Turn::Insert {
                machine,
                batch,
                blank,
            } => self.insert(alloc, &machine, batch, blank),
            Turn::Send { machine } => self.send(alloc, &machine),
            Turn::Card { machine, sw } => self.card(alloc, &machine, sw),
            Turn::Back { reply } => self.back(alloc, reply),
        }
    }

    // Returns the position of the machine `name`.
    fn place_of(&self, name: &Name) -> Option<usize>
        ensures place { result ≡ place_of name.now self.now }
        ensures within { IfSome result (λ i. i < length self.now.machines) }
    {
        self.machines
            .iter()
            .position(|feeder| feeder.machine().bytes() == name.bytes())
    }

    // A machine loses its state and starts, unless it had the boot number before.
    fn power(&mut self, machine: Name, boot: u64) -> Result<(), AllocError>
        requires least { 1 ≤ boot }
        requires most { boot ≤ 9999999999 }
        ensures { OnOk result (self.new ≡ powered machine boot self.old) }
    {
        if self.has_boot(&machine, boot) {
            return Ok(());
        }
        self.start(machine, boot)?;
        self.boots.push(Boot { machine, boot })?;
        Ok(())
    }

    fn has_boot(&self, machine: &Name, boot: u64) -> bool
        ensures { result ≡ list_any (is_boot machine.now boot) self.now.boots }
    {
        self.boots.iter().any(|used| used.machine.bytes() == machine.bytes() && used.boot == boot)
    }

    fn start(&mut self, machine: Name, boot: u64) -> Result<(), AllocError>
        requires least { 1 ≤ boot }
        requires most { boot ≤ 9999999999 }
        ensures { OnOk result (self.new
            ≡ comes self.old (started machine boot) (place_of machine self.old)) }
    {
        let place = self.place_of(&machine);
        let feeder = Feeder::start(machine, boot);
        match place {
            Some(place) => self.machines[place] = feeder,
            None => self.machines.push(feeder)?,
        }
        Ok(())
    }

    // Inserts a card into a machine.
    fn insert(
        &mut self,
        alloc: Global,
        machine: &Name,
        batch: Name,
        blank: u64,
    ) -> Result<Option<Vec<u8>>, AllocError>
        requires { blank < 10 ^ 18 }
        ensures { IfOk result (λ text. turned self.new text
            ≡ inserted machine.now batch blank self.old) }
    {
        let Some(place) = self.place_of(machine) else {
            return Ok(None);
        };
        match self.machines[place].insert(batch, blank) {
            Ok(()) => Ok(Some(text_line(alloc, b"ok")?)),
            Err(_) => Ok(Some(text_line(alloc, b"refused")?)),
        }
    }

    // A machine sends its pending request as a packet.
    fn send(&mut self, alloc: Global, machine: &Name) -> Result<Option<Vec<u8>>, AllocError>
        ensures { IfOk result (λ text. turned self.new text ≡ sent machine.now self.old) }
    {
        let Some(place) = self.place_of(machine) else {
            return Ok(None);
        };
        let Some(packet) = packet_of(alloc, &self.machines[place])? else {
            return Ok(Some(text_line(alloc, b"nothing")?));
        };
        self.packets.push(packet)?;
        Ok(Some(packet_line(alloc, self.packets.len())?))
    }

    // The card in a machine returns a status word.
    fn card(
        &mut self,
        alloc: Global,
        machine: &Name,
        sw: u16,
    ) -> Result<Option<Vec<u8>>, AllocError>
        ensures { IfOk result (λ text. turned self.new text ≡ carded machine.now sw self.old) }
    {
        let Some(place) = self.place_of(machine) else {
            return Ok(None);
        };
        let act = self.machines[place].card(sw);
        Ok(Some(act_line(alloc, act)?))
    }

    // A reply reaches the machine that sent the packet.
    fn back(&mut self, alloc: Global, reply: u64) -> Result<Option<Vec<u8>>, AllocError>
        requires { 1 ≤ reply }
        ensures { IfOk result (λ text. GoesBack self.old reply (turned self.new text)) }
    {
        let Some(returned) = self.replies.get((reply - 1) as usize) else {
            return Ok(None);
        };
        let (machine, number) = (returned.machine, returned.number);
        let heard = parse_reply(alloc, returned.bytes.as_slice())?;
        let text = self.hear(alloc, &machine, number, heard.as_ref());
        drop(heard);
        text
    }

    // A machine handles the reply to request `number`, if it is one.
    fn hear(
        &mut self,
        alloc: Global,
        machine: &Name,
        number: u64,
        reply: Option<&Reply>,
    ) -> Result<Option<Vec<u8>>, AllocError>
        ensures { IfOk result (λ text. turned self.new text
            ≡ backed machine.now number (option_map (λ r. r.now) reply.entry) self.old) }
    {
        let Some(place) = self.place_of(machine) else {
            return Ok(None);
        };
        match reply {
            Some(reply) => {
                let act = self.machines[place].reply(number, reply);
                Ok(Some(act_line(alloc, act)?))
            }
            None => Ok(Some(text_line(alloc, b"wait")?)),
        }
    }

    /// Returns packet number `packet`, from 1, or `None` if it doesn't exist.
    pub fn packet(&self, packet: u64) -> Option<&Packet>
        requires { 1 ≤ packet }
        ensures { option_map (λ p. p.now) result ≡ packet_at self.now packet }
    {
        self.packets.get((packet - 1) as usize)
    }

    /// Stores the reply to request `number` of `machine`, and returns the number of replies.
    ///
    /// # Errors
    ///
    /// Fails only if an allocation fails.
    pub fn keep(&mut self, machine: Name, number: u64, bytes: Bytes) -> Result<usize, AllocError>
        ensures { IfOk result (λ count. (self.new ≡ with_reply machine number bytes self.old)
            × (count ≡ length self.new.replies)) }
    {
        self.replies.push(Returned {
            machine,
            number,
            bytes,
        })?;
        Ok(self.replies.len())
    }
}

// Returns the packet of the feeder's pending request, if it has one.
fn packet_of(alloc: Global, feeder: &Feeder) -> Result<Option<Packet>, AllocError>
    ensures { IfOk result (λ packet. packet
        ≡ option_map (packet_of feeder.now) (asked feeder.now)) }
{
    let Some((number, call)) = feeder.ask() else {
        return Ok(None);
    };
    let message = request_text(alloc, feeder.machine(), number, call)?;
    Ok(Some(Packet {
        machine: *feeder.machine(),
        number,
        message,
    }))
}
