mod keys;
mod machine;
mod marks;
mod streams;
