use crate::outside::answers::{put_names, put_rows, put_starts};
use crate::outside::calls::{call_log, call_sink, call_source, call_wire};
use rs_base::{Bytes, NoMemory, Words, escape, write_decimal};
use rs_outside::{
    MemLog, MemSink, MemSource, MemWire, Outs, Starts, SureLog, SureSink, SureSource, SureWire,
};
use std::alloc::Global;

/// A double of the outside.
#[derive(Drop)]
pub enum Double {
    SureSource(SureSource),
    SureSink(SureSink),
    SureLog(SureLog),
    SureWire(SureWire),
    MemSource(MemSource),
    MemSink(MemSink),
    MemLog(MemLog),
    MemWire(MemWire),
}

impl Double {
    /// Calls it. `Ok(false)` where the words are no call of it.
    pub fn call(
        &mut self,
        alloc: Global,
        name: &[u8],
        args: &[Bytes],
        out: &mut Bytes,
    ) -> Result<bool, NoMemory> {
        match self {
            Double::SureSource(source) => call_source(alloc, source, name, args, out),
            Double::SureSink(sink) => call_sink(sink, name, args, out),
            Double::SureLog(log) => call_log(log, name, args, out),
            Double::SureWire(wire) => call_wire(wire, name, args, out),
            Double::MemSource(source) => call_source(alloc, source, name, args, out),
            Double::MemSink(sink) => call_sink(sink, name, args, out),
            Double::MemLog(log) => call_log(log, name, args, out),
            Double::MemWire(wire) => call_wire(wire, name, args, out),
        }
    }

    /// Asks what it tells under a name. `Ok(false)` where it tells nothing under that.
    pub fn tell(&self, name: &[u8], out: &mut Bytes) -> Result<bool, NoMemory> {
        match name {
            b"taken" => match self.taken() {
                Some(bytes) => escape(bytes.as_slice(), out)?,
                None => return Ok(false),
            },
            b"begun" => match self.begun() {
                Some(names) => put_names(names, out)?,
                None => return Ok(false),
            },
            b"calls" => match self.calls() {
                Some(calls) => write_decimal(calls, out)?,
                None => return Ok(false),
            },
            _ => return self.tell_of_clients(name, out),
        }
        Ok(true)
    }

    fn tell_of_clients(&self, name: &[u8], out: &mut Bytes) -> Result<bool, NoMemory> {
        match name {
            b"sent" => match self.sent() {
                Some(rows) => put_rows(rows, out)?,
                None => return Ok(false),
            },
            b"started" => match self.started() {
                Some(starts) => put_starts(starts, out)?,
                None => return Ok(false),
            },
            _ => return Ok(false),
        }
        Ok(true)
    }

    fn taken(&self) -> Option<&Bytes> {
        match self {
            Double::SureSink(sink) => Some(sink.taken()),
            Double::MemSink(sink) => Some(sink.taken()),
            Double::SureLog(log) => Some(log.taken()),
            Double::MemLog(log) => Some(log.taken()),
            _ => None,
        }
    }

    fn begun(&self) -> Option<&Words> {
        match self {
            Double::SureLog(log) => Some(log.begun()),
            Double::MemLog(log) => Some(log.begun()),
            _ => None,
        }
    }

    fn sent(&self) -> Option<&Outs> {
        match self {
            Double::SureWire(wire) => Some(wire.sent()),
            Double::MemWire(wire) => Some(wire.sent()),
            _ => None,
        }
    }

    fn started(&self) -> Option<&Starts> {
        match self {
            Double::SureWire(wire) => Some(wire.started()),
            Double::MemWire(wire) => Some(wire.started()),
            _ => None,
        }
    }

    fn calls(&self) -> Option<u64> {
        match self {
            Double::MemSource(source) => Some(source.calls()),
            Double::MemSink(sink) => Some(sink.calls()),
            Double::MemLog(log) => Some(log.calls()),
            Double::MemWire(wire) => Some(wire.calls()),
            _ => None,
        }
    }
}
