mod cases;
mod each_fault;
mod every_command;
mod expected;
mod parts;
mod serving;
mod table;
