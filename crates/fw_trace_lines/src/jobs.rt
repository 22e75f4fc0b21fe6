//! The jobs that an outcome may be of.

ghost use Rattle.std.specs.Prelude.{◌≡◌, ◌<◌, [], not, OnOk, IfSome, length};
ghost use Rattle.std.specs.List.{filter, position};
ghost use Rattle.fw_trace_lines.specs.Jobs.{is_now, is_older, is_older_at, first_where, displaced, with_job, job_at, with_outcome, jobs_after, without_device};

use crate::job::{Connection, TracedConnection, made_after, over_after};
use std::alloc::{AllocError, Global};
use std::marker::Model;

/// The jobs, at most one that has a slot now and one more a device. Few are there, so a look at each is short.
#[derive(Drop)]
pub(crate) struct Jobs {
    rows: Vec<TracedConnection>,
}

impl Model for Jobs {
    ghost use Rattle.std.specs.Prelude.{List};
    ghost use Rattle.fw_trace_lines.specs.declared.job.TracedConnection.{TracedConnection};

    ghost Value = { List TracedConnection };

    ghost view = { λ j. j.rows.items };
}

impl Jobs {
    // None.
    pub(crate) fn new(alloc: Global) -> Jobs
        ensures { result ≡ [] }
    {
        Jobs {
            rows: Vec::new(alloc),
        }
    }

    // The job of an outcome of a device and a slot.
    #[tactic(auto, unfolding(crate::specs::Jobs::job_at))]
    pub(crate) fn at(&self, device: u8, slot: u8) -> Option<TracedConnection>
        ensures { result ≡ job_at device slot self.now }
    {
        match older_in(&self.rows, device, slot) {
            Some(job) => Some(job),
            None => now_in(&self.rows, device, slot),
        }
    }

    // Puts back the job that had a slot, if it is not over: it becomes the device's older one.
    fn displace(&mut self, before: Option<TracedConnection>) -> Result<(), AllocError>
        ensures { OnOk result (self.new ≡ displaced before self.old) }
    {
        match before {
            Some(job) if !job.over => {
                drop_older(&mut self.rows, job.device);
                self.rows.push(TracedConnection { older: true, ..job })?;
                Ok(())
            }
            _ => Ok(()),
        }
    }

    // A new job takes a slot.
    #[tactic(auto, unfolding(crate::specs::Jobs::with_job))]
    pub(crate) fn add(
        &mut self,
        device: u8,
        slot: u8,
        connection: Connection,
    ) -> Result<(), AllocError>
        ensures { OnOk result (self.new ≡ with_job device slot connection self.old) }
    {
        let before = now_in(&self.rows, device, slot);
        drop_now(&mut self.rows, device, slot);
        self.displace(before)?;
        self.rows
            .push(TracedConnection::new(device, slot, connection))?;
        Ok(())
    }

    // Takes an outcome of a job that is there.
    fn end(&mut self, code: u8, job: Option<TracedConnection>) -> Result<(), AllocError>
        ensures { OnOk result (self.new ≡ with_outcome code job self.old) }
    {
        let Some(job) = job else {
            return Ok(());
        };
        if job.older {
            drop_older_at(&mut self.rows, job.device, job.slot);
            return Ok(());
        }
        drop_now(&mut self.rows, job.device, job.slot);
        self.rows.push(TracedConnection {
            made: made_after(code, job.made),
            over: over_after(code, job.over),
            ..job
        })?;
        Ok(())
    }

    // Takes an outcome of a device and a slot.
    #[tactic(auto, unfolding(crate::specs::Jobs::jobs_after))]
    pub(crate) fn take_outcome(&mut self, code: u8, device: u8, slot: u8) -> Result<(), AllocError>
        ensures { OnOk result (self.new ≡ jobs_after code device slot self.old) }
    {
        let job = self.at(device, slot);
        self.end(code, job)
    }

    // The controller of a device has died.
    pub(crate) fn forget(&mut self, device: u8)
        ensures { self.new ≡ without_device device self.old }
    {
        drop_device(&mut self.rows, device);
    }
}

// The place of the job that has a slot now.
fn place_now(rows: &[TracedConnection], device: u8, slot: u8) -> Option<usize>
    ensures value { result ≡ position (is_now device slot) rows.now }
    ensures there { IfSome result (λ at. at < length rows.now) }
{
    rows.iter().position(|job| job.is_now(device, slot))
}

// The job that has a slot now.
fn now_in(rows: &[TracedConnection], device: u8, slot: u8) -> Option<TracedConnection>
    ensures { result ≡ first_where (is_now device slot) rows.now }
{
    match place_now(rows, device, slot) {
        Some(at) => rows.get(at).copied(),
        None => None,
    }
}

// The place of the device's older job, if it is of this slot.
fn place_older(rows: &[TracedConnection], device: u8, slot: u8) -> Option<usize>
    ensures value { result ≡ position (is_older_at device slot) rows.now }
    ensures there { IfSome result (λ at. at < length rows.now) }
{
    rows.iter().position(|job| job.is_older_at(device, slot))
}

// The device's older job, if it is of this slot.
fn older_in(rows: &[TracedConnection], device: u8, slot: u8) -> Option<TracedConnection>
    ensures { result ≡ first_where (is_older_at device slot) rows.now }
{
    match place_older(rows, device, slot) {
        Some(at) => rows.get(at).copied(),
        None => None,
    }
}

// Drops the job that has a slot now.
fn drop_now(rows: &mut Vec<TracedConnection>, device: u8, slot: u8)
    ensures { rows.new.items ≡ filter (λ j. not (is_now device slot j)) rows.old.items }
{
    rows.retain(|job| !job.is_now(device, slot));
}

// Drops the device's older job.
fn drop_older(rows: &mut Vec<TracedConnection>, device: u8)
    ensures { rows.new.items ≡ filter (λ j. not (is_older device j)) rows.old.items }
{
    rows.retain(|job| !job.is_older(device));
}

// Drops the device's older job, if it is of this slot.
fn drop_older_at(rows: &mut Vec<TracedConnection>, device: u8, slot: u8)
    ensures { rows.new.items ≡ filter (λ j. not (is_older_at device slot j)) rows.old.items }
{
    rows.retain(|job| !job.is_older_at(device, slot));
}

// Drops all jobs of a device.
fn drop_device(rows: &mut Vec<TracedConnection>, device: u8)
    ensures { rows.new.items ≡ without_device device rows.old.items }
{
    rows.retain(|job| job.device != device);
}
