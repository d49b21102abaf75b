//! The rows of the primary, which begins puts, sends them to the backups and answers their clients.
ghost use Rattle.std.specs.Prelude.{ℕ, List, Option, ◌≡◌, ◌+◌, ◌<◌, ◌≤◌, ◌++◌, [], length, Some};
ghost use Rattle.std.specs.Prelude.{IfSome, slice_set};
ghost use Rattle.sim_node.specs.Node.{IsHostSetup, IsFrom};
ghost use Rattle.sim_hosts.specs.Reactions.{asked_for};
ghost use Rattle.sim_hosts.specs.Waiting.{restored, IsPlacedSlot};
ghost use Rattle.sim_primary_backup.specs.PrimaryBackup.{primary_at_boot, started, begun};
ghost use Rattle.sim_primary_backup.specs.PrimaryBackup.{begun_lowest, is_of_another, put_by};
ghost use Rattle.sim_primary_backup.specs.PrimaryBackup.{fin_of, acknowledged, acked, spread};
ghost use Rattle.sim_primary_backup.specs.PrimaryBackup.{primary_timer, settled, primary_synced};
ghost use Rattle.sim_primary_backup.specs.PrimaryBackup.{react_primary};
ghost use Rattle.sim_primary_backup.specs.PrimaryBackupRecords.{IsPlacedPrimary, IsPlacedCell};
ghost use Rattle.sim_primary_backup.specs.PrimaryBackupRecords.{IsPlacedChanges, restored_cell};
ghost use Rattle.sim_primary_backup.specs.PrimaryBackupRecords.{primary_before};

use crate::{BackupMsg, CellBefore, Changes, Primary, Progress, Request, Store, Waiter};
use sim_hosts::{
    HostSet, SlotBefore, is_other, lowest_waiting, put_back, send_to_all, send_to_missing,
    wait_with,
};
use sim_node::{Effects, HostSetup, Input};

/// How long the primary waits for the backups before it sends again (ms).
const PATIENCE: u32 = 100;

/// A reaction that changed no cell and no slot.
const UNCHANGED: Changes = Changes {
    cell: CellBefore::Same,
    slot: SlotBefore::Same,
};

impl Request {
    /// Returns whether the put is not this host's.
    fn is_of_another(&self, host: u16) -> bool
        ensures { result ≡ is_of_another host self.now }
    {
        match self.client {
            None => true,
            Some(client) => client != host,
        }
    }

    /// Sends the put's client, if it has one, the answer that the put has ended.
    fn tell(&self, setup: &HostSetup, effects: &mut Effects<BackupMsg>)
        requires client { IfSome self.now.client (λ client. client < setup.now.hosts) }
        requires empty { effects.old ≡ asked_for setup.now [] }
        ensures { effects.new ≡ asked_for setup.now (fin_of self.now) }
    {
        if let Some(client) = self.client {
            effects.send(client, BackupMsg::Fin(self.number));
        }
    }
}

impl Primary {
    /// Returns the primary that boots from these bytes of its disk.
    pub fn at_boot(disk: &[u8]) -> Primary
        ensures state { result ≡ primary_at_boot disk.now }
        ensures placed { (hosts : ℕ) → IsPlacedPrimary hosts result.store.progress result.current }
    {
        Primary {
            store: Store::on(disk),
            current: None,
            waiting: [None; 32],
        }
    }

    /// Handles the start: if a put was applied, sends the last one to the backups again.
    fn start(&mut self, setup: &HostSetup, effects: &mut Effects<BackupMsg>)
        requires setup { IsHostSetup setup.now }
        requires placed { IsPlacedPrimary setup.now.hosts self.old.store.progress self.old.current }
        requires empty { effects.old ≡ asked_for setup.now [] }
        ensures state { self.new ≡ (started setup.now self.old).0 }
        ensures placed { IsPlacedPrimary setup.now.hosts self.new.store.progress self.new.current }
        ensures effects { effects.new ≡ asked_for setup.now (started setup.now self.old).1 }
    {
        if self.store.progress.applied > 0 {
            self.current = Some(Request {
                client: None,
                number: 0,
                answers: HostSet::nobody(),
            });
            send_to_all(1, setup, self.store.last_put(), effects);
            effects.timer(PATIENCE);
        }
    }

    /// Begins a client's put. Returns what the cell held.
    fn begin(
        &mut self,
        client: u16,
        put: Waiter,
        setup: &HostSetup,
        effects: &mut Effects<BackupMsg>,
    ) -> CellBefore
        requires client { client < setup.now.hosts }
        requires room { length effects.old.list < 8 }
        ensures state { self.new ≡ (begun client put.number put.val self.old).0 }
        ensures placed { IsPlacedPrimary setup.now.hosts self.new.store.progress self.new.current }
        ensures effects { effects.new ≡ record effects.old {
          list = effects.old.list ++ (begun client put.number put.val self.old).1;
        } }
        ensures cell { IsPlacedCell result }
        ensures back { restored_cell result self.new.store.cells ≡ self.old.store.cells }
    {
        self.current = Some(Request {
            client: Some(client),
            number: put.number,
            answers: HostSet::nobody(),
        });
        let n = self.store.progress.applied.saturating_add(1);
        let before = self
            .store
            .apply(n, (put.number % 16) as u8, put.val, effects);
        effects.timer(PATIENCE);
        before
    }

    /// Sets what a host waits with. Returns what it waited with before.
    fn put_waiter(&mut self, host: u16, waiter: Option<Waiter>) -> SlotBefore<Waiter>
        requires { host < 32 }
        ensures state { self.new ≡ record self.old {
          waiting = slice_set self.old.waiting host waiter;
        } }
        ensures back { restored result self.new.waiting ≡ self.old.waiting }
        ensures slot { IsPlacedSlot result }
    {
        wait_with(&mut self.waiting, host, waiter)
    }

    /// Begins the put of the lowest waiting host, or rests if none waits.
    fn begin_lowest(&mut self, setup: &HostSetup, effects: &mut Effects<BackupMsg>) -> Changes
        requires setup { IsHostSetup setup.now }
        requires placed { IsPlacedPrimary setup.now.hosts self.old.store.progress self.old.current }
        requires room { length effects.old.list < 8 }
        ensures state { self.new ≡ (begun_lowest setup.now self.old).0 }
        ensures placed { IsPlacedPrimary setup.now.hosts self.new.store.progress self.new.current }
        ensures effects { effects.new ≡ record effects.old {
          list = effects.old.list ++ (begun_lowest setup.now self.old).1;
        } }
        ensures changes { IsPlacedChanges result }
        ensures back { primary_before self.old.store.progress self.old.current result self.new
            ≡ self.old }
    {
        match lowest_waiting(setup, &self.waiting) {
            None => {
                self.current = None;
                UNCHANGED
            }
            Some((client, put)) => {
                let slot = self.put_waiter(client, None);
                let cell = self.begin(client, put, setup, effects);
                Changes { cell, slot }
            }
        }
    }

    /// Handles a put that a host asks for.
    fn put_by(
        &mut self,
        from: u16,
        put: Waiter,
        setup: &HostSetup,
        effects: &mut Effects<BackupMsg>,
    ) -> Changes
        requires setup { IsHostSetup setup.now }
        requires from { from < setup.now.hosts }
        requires placed { IsPlacedPrimary setup.now.hosts self.old.store.progress self.old.current }
        requires empty { effects.old ≡ asked_for setup.now [] }
        ensures state { self.new ≡ (put_by from put.number put.val self.old.current self.old).0 }
        ensures placed { IsPlacedPrimary setup.now.hosts self.new.store.progress self.new.current }
        ensures effects { effects.new ≡ asked_for setup.now
            (put_by from put.number put.val self.old.current self.old).1 }
        ensures changes { IsPlacedChanges result }
        ensures back { primary_before self.old.store.progress self.old.current result self.new
            ≡ self.old }
    {
        let Some(current) = self.current else {
            return Changes {
                cell: self.begin(from, put, setup, effects),
                slot: SlotBefore::Same,
            };
        };
        let slot = if current.is_of_another(from) {
            self.put_waiter(from, Some(put))
        } else {
            SlotBefore::Same
        };
        Changes {
            cell: CellBefore::Same,
            slot,
        }
    }

    /// Notes that a backup has the current put.
    fn acknowledge(
        &mut self,
        from: u16,
        current: Request,
        setup: &HostSetup,
        effects: &mut Effects<BackupMsg>,
    ) -> Changes
        requires setup { IsHostSetup setup.now }
        requires from { from < setup.now.hosts }
        requires current { IsPlacedPrimary setup.now.hosts self.old.store.progress (Some current) }
        requires placed { IsPlacedPrimary setup.now.hosts self.old.store.progress self.old.current }
        requires empty { effects.old ≡ asked_for setup.now [] }
        ensures state { self.new ≡ (acknowledged from current setup.now self.old).0 }
        ensures placed { IsPlacedPrimary setup.now.hosts self.new.store.progress self.new.current }
        ensures effects { effects.new ≡ asked_for setup.now
            (acknowledged from current setup.now self.old).1 }
        ensures changes { IsPlacedChanges result }
        ensures back { primary_before self.old.store.progress self.old.current result self.new
            ≡ self.old }
    {
        let answers = current.answers.joined(from);
        if answers.has_servers_from(1, setup) {
            current.tell(setup, effects);
            return self.begin_lowest(setup, effects);
        }
        self.current = Some(Request { answers, ..current });
        UNCHANGED
    }

    /// Handles an acknowledgement of put number `m`.
    fn acked(
        &mut self,
        from: u16,
        m: u64,
        setup: &HostSetup,
        effects: &mut Effects<BackupMsg>,
    ) -> Changes
        requires setup { IsHostSetup setup.now }
        requires from { from < setup.now.hosts }
        requires placed { IsPlacedPrimary setup.now.hosts self.old.store.progress self.old.current }
        requires empty { effects.old ≡ asked_for setup.now [] }
        ensures state { self.new ≡ (acked from m self.old.current setup.now self.old).0 }
        ensures placed { IsPlacedPrimary setup.now.hosts self.new.store.progress self.new.current }
        ensures effects { effects.new ≡ asked_for setup.now
            (acked from m self.old.current setup.now self.old).1 }
        ensures changes { IsPlacedChanges result }
        ensures back { primary_before self.old.store.progress self.old.current result self.new
            ≡ self.old }
    {
        if let Some(current) = self.current
            && is_other(setup, from)
            && m == self.store.progress.applied
        {
            return self.acknowledge(from, current, setup, effects);
        }
        UNCHANGED
    }

    /// Sends the current put to the backups that have not answered.
    fn spread(&self, current: Request, setup: &HostSetup, effects: &mut Effects<BackupMsg>)
        requires setup { IsHostSetup setup.now }
        requires placed { IsPlacedPrimary setup.now.hosts self.now.store.progress self.now.current }
        requires empty { effects.old ≡ asked_for setup.now [] }
        ensures room { length effects.new.list ≤ setup.now.servers }
        ensures effects { effects.new ≡ asked_for setup.now (spread current setup.now self.now) }
    {
        let put = self.store.last_put();
        send_to_missing(1, setup, current.answers, put, effects);
    }

    /// Handles the timer.
    fn timed_out(&self, setup: &HostSetup, effects: &mut Effects<BackupMsg>)
        requires setup { IsHostSetup setup.now }
        requires placed { IsPlacedPrimary setup.now.hosts self.now.store.progress self.now.current }
        requires empty { effects.old ≡ asked_for setup.now [] }
        ensures { effects.new ≡ asked_for setup.now (primary_timer self.now.current setup.now
            self.now).1 }
    {
        if let Some(current) = self.current {
            if self.store.progress.unsure == 0 {
                self.spread(current, setup, effects);
            }
            effects.timer(PATIENCE);
        }
    }

    /// Handles a sync. If the primary is settled, it sends its put to the backups.
    fn synced(&mut self, setup: &HostSetup, effects: &mut Effects<BackupMsg>)
        requires setup { IsHostSetup setup.now }
        requires placed { IsPlacedPrimary setup.now.hosts self.old.store.progress self.old.current }
        requires empty { effects.old ≡ asked_for setup.now [] }
        ensures state { self.new ≡ (primary_synced setup.now self.old).0 }
        ensures placed { IsPlacedPrimary setup.now.hosts self.new.store.progress self.new.current }
        ensures effects { effects.new ≡ asked_for setup.now (primary_synced setup.now self.old).1 }
    {
        let settled = self.store.synced();
        if let Some(current) = self.current
            && settled
        {
            self.spread(current, setup, effects);
            effects.timer(PATIENCE);
        }
    }

    /// Reacts to an input. Returns what a cell held and what a host waited with, if these have
    /// changed.
    pub fn react(
        &mut self,
        setup: &HostSetup,
        input: &Input<BackupMsg>,
        effects: &mut Effects<BackupMsg>,
    ) -> Changes
        requires setup { IsHostSetup setup.now }
        requires sender { IsFrom setup.now.hosts input.now }
        requires placed { IsPlacedPrimary setup.now.hosts self.old.store.progress self.old.current }
        requires empty { effects.old ≡ asked_for setup.now [] }
        ensures state { self.new ≡ (react_primary setup.now self.old input.now).0 }
        ensures placed { IsPlacedPrimary setup.now.hosts self.new.store.progress self.new.current }
        ensures effects { effects.new ≡ asked_for setup.now
            (react_primary setup.now self.old input.now).1 }
        ensures changes { IsPlacedChanges result }
        ensures back { primary_before self.old.store.progress self.old.current result self.new
            ≡ self.old }
    {
        let mut changes = UNCHANGED;
        match input {
            Input::Start => self.start(setup, effects),
            Input::Timer => self.timed_out(setup, effects),
            Input::Synced => self.synced(setup, effects),
            Input::Message { sender, msg } => match msg {
                BackupMsg::Put(i, val) => {
                    let put = Waiter {
                        number: *i,
                        val: *val,
                    };
                    changes = self.put_by(*sender, put, setup, effects);
                }
                BackupMsg::Ack(m) => changes = self.acked(*sender, *m, setup, effects),
                _ => {}
            },
        }
        changes
    }

    /// Undoes a reaction.
    pub fn take_back(&mut self, progress: Progress, current: Option<Request>, changes: Changes)
        requires { IsPlacedChanges changes }
        ensures { self.new ≡ primary_before progress current changes self.old }
    {
        self.store.take_back(progress, changes.cell);
        self.current = current;
        put_back(&mut self.waiting, changes.slot);
    }
}
