mod desk;
mod kept;
mod many;
mod posted;
