// The calls of the crate feeding as a host in C or Rust links them: an export calls the function of its name and promises, in the same clauses, what that promises.
#![tactic(auto)]

ghost use Rattle.std.specs.Prelude.{[], true, false};
ghost use Rattle.pieces.specs.Pieces.{started};
ghost use Rattle.pieces.specs.Reads.{request_read, reply_read};
ghost use Rattle.walk.specs.Judge.{room_for};
ghost use Rattle.places.specs.Places.{room_of};
ghost use Rattle.reply.specs.Reply.{offering};
ghost use Rattle.reading.specs.Read.{request_given, reply_given};
ghost use Rattle.cells.specs.Cells.{cells, Gives};
ghost use Rattle.feeding.specs.Fed.{line_cells, Feeds};

use record::Profile;

// Starts a read in the usual profile.
#[unsafe(no_mangle)]
pub extern "C" fn ntske_connection_new(limit: u16, connection: &mut [usize; 9]) -> u64
    ensures { Gives (cells (line_cells (started Profile.Usual limit))) connection.old result connection.new }
{
    feeding::ntske_connection_new(limit, connection)
}

// Starts a read in the strict profile.
#[unsafe(no_mangle)]
pub extern "C" fn ntske_connection_new_strict(limit: u16, connection: &mut [usize; 9]) -> u64
    ensures { Gives (cells (line_cells (started Profile.Strict limit))) connection.old result connection.new }
{
    feeding::ntske_connection_new_strict(limit, connection)
}

// Hands over a piece of a request.
#[unsafe(no_mangle)]
pub extern "C" fn ntske_feed_request(
    connection: &mut [usize; 9],
    piece: &[u8],
    buffer: &mut [u8],
    table: &mut [u16],
    answer: &mut [usize; 10],
) -> u64
    ensures { Feeds request_read request_given connection.old buffer.old (record { piece = piece.now; closed = false }) (room_for (room_of table.old)) table.old answer.old
        result connection.new buffer.new table.new answer.new }
{
    feeding::ntske_feed_request(connection, piece, buffer, table, answer)
}

// Says that the line of a request closed.
#[unsafe(no_mangle)]
pub extern "C" fn ntske_close_request(
    connection: &mut [usize; 9],
    buffer: &mut [u8],
    table: &mut [u16],
    answer: &mut [usize; 10],
) -> u64
    ensures { Feeds request_read request_given connection.old buffer.old (record { piece = []; closed = true }) (room_for (room_of table.old)) table.old answer.old
        result connection.new buffer.new table.new answer.new }
{
    feeding::ntske_close_request(connection, buffer, table, answer)
}

// Hands over a piece of a reply, to one who offered these protocols and algorithms.
#[unsafe(no_mangle)]
pub extern "C" fn ntske_feed_reply(
    connection: &mut [usize; 9],
    piece: &[u8],
    protocols: &[u16],
    algorithms: &[u16],
    buffer: &mut [u8],
    table: &mut [u16],
    answer: &mut [usize; 9],
) -> u64
    ensures { Feeds reply_read reply_given connection.old buffer.old (record { piece = piece.now; closed = false }) (offering protocols.now algorithms.now (room_of table.old)) table.old answer.old
        result connection.new buffer.new table.new answer.new }
{
    feeding::ntske_feed_reply(
        connection, piece, protocols, algorithms, buffer, table, answer,
    )
}

// Says that the line of a reply closed.
#[unsafe(no_mangle)]
pub extern "C" fn ntske_close_reply(
    connection: &mut [usize; 9],
    protocols: &[u16],
    algorithms: &[u16],
    buffer: &mut [u8],
    table: &mut [u16],
    answer: &mut [usize; 9],
) -> u64
    ensures { Feeds reply_read reply_given connection.old buffer.old (record { piece = []; closed = true }) (offering protocols.now algorithms.now (room_of table.old)) table.old answer.old
        result connection.new buffer.new table.new answer.new }
{
    feeding::ntske_close_reply(connection, protocols, algorithms, buffer, table, answer)
}
