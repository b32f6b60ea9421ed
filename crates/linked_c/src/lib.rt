// The static library that a Rust or C program links: the functions of `linked`, exported under their names and with their clauses.
#![tactic(auto)]

ghost use Rattle.writing.specs.Writing.{rows_given};
ghost use Rattle.linked.specs.Rows.{EarlyLinked, LateLinked, WriteLinked};

#[unsafe(no_mangle)]
pub extern "C" fn bankmurmur_early(
    file: &[u8],
    stretch: &mut [u32],
    writer: &mut [u32],
    readers: &mut [u32],
    row: &mut [u64; 6],
)
    ensures { EarlyLinked file.now stretch.old writer.old readers.old stretch.new writer.new readers.new row.new }
{
    linked::bankmurmur_early(file, stretch, writer, readers, row)
}

#[unsafe(no_mangle)]
pub extern "C" fn bankmurmur_late(
    file: &[u8],
    stretch: &mut [u32],
    writer: &mut [u32],
    version: &mut [u32],
    log: &mut [u32],
    row: &mut [u64; 6],
)
    ensures { LateLinked file.now stretch.old writer.old version.old log.old stretch.new writer.new version.new log.new row.new }
{
    linked::bankmurmur_late(file, stretch, writer, version, log, row)
}

#[unsafe(no_mangle)]
pub extern "C" fn bankmurmur_write(
    worker_labels: &[u32],
    field_labels: &[u32],
    kinds: &[u32],
    workers: &[u32],
    fields: &[u32],
    buffer: &mut [u8],
    row: &mut [u64; 6],
)
    ensures { WriteLinked (rows_given worker_labels.now field_labels.now kinds.now workers.now fields.now) buffer.old buffer.new row.new }
{
    linked::bankmurmur_write(
        worker_labels,
        field_labels,
        kinds,
        workers,
        fields,
        buffer,
        row,
    )
}
