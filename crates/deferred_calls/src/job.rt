//! A job with its number, and the handle of a job.
ghost use Rattle.std.specs.Prelude.{◌≡◌, ◌≤◌, IfOk};
ghost use Rattle.memory_count.specs.Faults.{HasCause};
ghost use Rattle.message_buffer.specs.Buffer.{bytes_of};

use memory_count::{Memory, NoMemory};
use message_buffer::{MOST_CAPACITY, MsgBuf};
use std::marker::Model;
use std::snapshot::Snapshot;
use worker_board::Parcel;

/// A job with its number, which counts the jobs given from 0.
#[derive(Debug, Drop)]
pub struct Numbered {
    pub number: u64,
    pub parcel: Parcel,
}

/// What a desk keeps of a job whose handle is out: its number, and for the contracts its content.
#[derive(Drop)]
pub(crate) struct HandleOut {
    pub(crate) number: u64,
    pub(crate) job: Snapshot<Parcel>,
}

impl Model for HandleOut {
    ghost use Rattle.deferred_calls.specs.declared.job.Numbered.{Numbered};

    ghost Value = { Numbered };

    ghost view = { λ h. record { number = h.number; parcel = h.job.value } };
}

impl HandleOut {
    /// Remembers a job.
    pub(crate) fn of(job: &Numbered) -> HandleOut
        ensures { result ≡ job.now }
    {
        HandleOut {
            number: job.number,
            job: Snapshot::of(&job.parcel),
        }
    }

    pub(crate) fn number(&self) -> u64
        ensures { result ≡ self.now.number }
    {
        self.number
    }
}

/// The handle of a job. It must be spent.
pub struct Deferred {
    job: Numbered,
}

impl Model for Deferred {
    ghost use Rattle.deferred_calls.specs.declared.job.Numbered.{Numbered};

    ghost Value = { Numbered };

    ghost view = { λ d. d.job };

    ghost inverse = { λ n. record { job = n } };
}

impl Deferred {
    pub(crate) fn of(job: Numbered) -> Deferred
        ensures { result ≡ job }
    {
        Deferred { job }
    }

    pub(crate) fn into_job(self) -> Numbered
        ensures { result ≡ self }
    {
        let Deferred { job } = self;
        job
    }

    /// How many jobs were given before this one.
    pub fn number(&self) -> u64
        ensures { result ≡ self.now.number }
    {
        self.job.number
    }

    /// The type that is asked.
    pub fn req_type(&self) -> u8
        ensures { result ≡ self.now.parcel.req_type }
    {
        self.job.parcel.req_type
    }

    /// The bytes that are asked.
    pub fn ask(&self) -> &[u8]
        ensures { result.now ≡ bytes_of self.now.parcel.ask }
    {
        self.job.parcel.ask.bytes()
    }

    /// How many bytes the answer has.
    pub fn room(&self) -> u32
        ensures room { result ≡ self.now.parcel.out.len }
        ensures most { result ≤ MOST_CAPACITY }
    {
        let out = &self.job.parcel.out;
        let _most = out.capacity();
        out.len()
    }

    /// A message of the bytes that are asked.
    pub fn copy_ask(&self, memory: &mut Memory) -> Result<MsgBuf, NoMemory>
        ensures asks { IfOk result (λ b. bytes_of b ≡ bytes_of self.now.parcel.ask) }
        ensures len { IfOk result (λ b. b.len ≡ self.now.parcel.ask.len) }
        ensures cause { HasCause memory.old memory.new result }
    {
        let ask = &self.job.parcel.ask;
        let _most = ask.capacity();
        let len = ask.len();
        let mut copy = MsgBuf::new(memory, len)?;
        copy.set_len(len);
        copy.write(0, ask.bytes());
        Ok(copy)
    }

    /// Gives the handle up, and hands the job's buffers out. The job counts as given and not taken
    /// from then on.
    pub fn give_up(self) -> Parcel
        ensures { result ≡ self.parcel }
    {
        let Deferred { job } = self;
        let Numbered { number: _, parcel } = job;
        parcel
    }
}
