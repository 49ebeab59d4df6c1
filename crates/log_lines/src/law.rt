//! That what the server writes is read back.

ghost use Rattle.log_lines.specs.ReadBack.{WhatIsWrittenIsRead};

/// The line that the server writes of a transfer is read as what it records: its moment, its seconds, address and octets,
/// its path and user as the line has them, its type, its direction, its access, and whether it was complete.
pub fn written_is_read()
    ensures law { WhatIsWrittenIsRead }
{}
