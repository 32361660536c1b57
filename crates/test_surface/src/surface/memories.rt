//! rv_ram and rv_cache: the memories and the caches.
use rv_cache::{DecodeCache, Decoded, NoCache};
use rv_isa::{Instr, NoMemory, Width};
use rv_ram::{ByteMemory, FlatMemory, PagedRam};
use std::alloc::Global;

const _: fn(Global, u32) -> Result<FlatMemory, NoMemory> = FlatMemory::new;

const _: fn(Global, u32) -> Result<PagedRam, NoMemory> = PagedRam::new;

const _: fn(&PagedRam) -> u32 = <PagedRam as ByteMemory>::size;

const _: fn(&PagedRam, u32) -> u8 = <PagedRam as ByteMemory>::read;

const _: fn(&PagedRam, u32) -> u32 = <PagedRam as ByteMemory>::read_word;

const _: fn(&mut PagedRam, u32, Width, u32) -> Result<(), NoMemory> =
    <PagedRam as ByteMemory>::write;

const _: fn(Global, u32) -> Result<DecodeCache, NoMemory> = DecodeCache::new;

const _: NoCache = NoCache;

const _: fn(&DecodeCache, u32) -> Option<Instr> = <DecodeCache as Decoded>::get;

const _: fn(&mut DecodeCache, u32, Instr) = <DecodeCache as Decoded>::note;

const _: fn(&mut DecodeCache, u32) = <DecodeCache as Decoded>::forget;
